//! The protocols by their names, as the command line chooses one: from there on a type stands for it, and its laws are
//! proved.

ghost use Rattle.std.specs.Prelude.{◌≡◌};
ghost use Rattle.protocol_tables.specs.Names.{protocol_name};

/// Which protocol a machine's caches follow.
#[derive(Clone, Copy)]
pub enum ProtocolKind {
    Msi,
    Mesi,
    Moesi,
    Mosi,
}

impl ProtocolKind {
    /// The protocol's name as it is written in a command line and a report, in small letters.
    pub fn name(self) -> &'static str
        ensures { result.now ≡ protocol_name self }
    {
        match self {
            ProtocolKind::Msi => "msi",
            ProtocolKind::Mesi => "mesi",
            ProtocolKind::Moesi => "moesi",
            ProtocolKind::Mosi => "mosi",
        }
    }
}
