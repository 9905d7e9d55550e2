//! The general registers, their numbers and their names. One order of them holds wherever registers are listed.
ghost use Rattle.std.specs.Prelude.{◌≡◌, ◌<◌};
ghost use Rattle.tso_terms.specs.Registers.{index_of, name_of, register_named};

/// A general register of 32 bits.
#[derive(Clone, Copy)]
pub enum Reg {
    Eax,
    Ebx,
    Ecx,
    Edx,
    Esi,
    Edi,
}

impl Reg {
    /// The registers in the order in which they are numbered and printed.
    pub const ALL: [Reg; 6] = [Reg::Eax, Reg::Ebx, Reg::Ecx, Reg::Edx, Reg::Esi, Reg::Edi];

    /// The register's place in a list of all six, from 0.
    pub fn index(self) -> usize
        ensures place { result ≡ index_of self }
        ensures bound { result < 6 }
    {
        match self {
            Reg::Eax => 0,
            Reg::Ebx => 1,
            Reg::Ecx => 2,
            Reg::Edx => 3,
            Reg::Esi => 4,
            Reg::Edi => 5,
        }
    }

    /// The register's name as it is printed, in capitals.
    pub fn name(self) -> &'static str
        ensures { result.now ≡ name_of self }
    {
        match self {
            Reg::Eax => "EAX",
            Reg::Ebx => "EBX",
            Reg::Ecx => "ECX",
            Reg::Edx => "EDX",
            Reg::Esi => "ESI",
            Reg::Edi => "EDI",
        }
    }

    /// The register of this name, in any case of letters; `None` where no register has it.
    pub fn from_name(name: &[u8]) -> Option<Reg>
        ensures { result ≡ register_named name.now }
    {
        let [first, second, third] = name else {
            return None;
        };
        match [
            first.to_ascii_lowercase(),
            second.to_ascii_lowercase(),
            third.to_ascii_lowercase(),
        ] {
            [b'e', b'a', b'x'] => Some(Reg::Eax),
            [b'e', b'b', b'x'] => Some(Reg::Ebx),
            [b'e', b'c', b'x'] => Some(Reg::Ecx),
            [b'e', b'd', b'x'] => Some(Reg::Edx),
            [b'e', b's', b'i'] => Some(Reg::Esi),
            [b'e', b'd', b'i'] => Some(Reg::Edi),
            _ => None,
        }
    }
}
