//! A state as a string of bytes: a search keeps as many of these as there are states, so each is one short piece of memory.
ghost use Rattle.std.specs.Prelude.{[], ◌∷◌};
ghost use Rattle.std.specs.Cmp.Rules.{comparing, hashing};
ghost use Rattle.std.proofs.Common.{rules};

use std::hash::{Hash, Hasher};

/// A state, packed. Two are equal where their bytes are.
#[derive(PartialEq, Eq, Drop)]
pub struct Packed {
    pub bytes: Vec<u8>,
}

// All bytes are handed over in one piece: a hasher goes through them in fewer steps than one by one.
impl Hash for Packed {
    ghost hash_input = { λ packed. packed.bytes.items ∷ [] };

    ghost respects_eq = { Prim.search (hashing, rules) };

    fn hash<H: Hasher>(&self, state: &mut H) {
        state.write(&self.bytes);
    }
}
