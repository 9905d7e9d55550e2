//! The commits of a run, in the order in which they are noted: on the atomic bus this is memory order. An entry that was
//! left out, or noted twice, would make the run no execution.
ghost use Rattle.std.specs.Prelude.{◌≡◌, ◌+◌, ◌<◌, ◌≤◌, [], ◌∷◌, ◌++◌, IsOk, OnOk, OnErr};

use std::alloc::Global;
use std::marker::Model;
use tso_terms::{Entry, NoMemory};

/// The entries that have been committed, in the order of their commits.
#[derive(Drop)]
pub struct Commits {
    entries: Vec<Entry>,
}

impl Model for Commits {
    ghost use Rattle.commit_order.specs.inner.Noted.{Noted, noted};

    ghost Value = { Noted };

    ghost view = { λ c. noted c.entries };
}

impl Commits {
    /// No commits. Takes no memory.
    pub fn new(alloc: Global) -> Self
        ensures { result ≡ record { entries = []; room = 0 } }
    {
        Commits {
            entries: Vec::new(alloc),
        }
    }

    /// Makes room for so many further entries, so that noting them can't fail. Nothing is noted.
    ///
    /// Errors: out of memory only.
    pub fn make_room(&mut self, entries: u8) -> Result<(), NoMemory>
        ensures ok { OnOk result (entries ≤ self.new.room) }
        ensures same { self.new.entries ≡ self.old.entries }
    {
        self.entries.reserve(entries as usize)?;
        Ok(())
    }

    /// Notes that the entry is committed now, after all that were noted before.
    ///
    /// Errors: out of memory only, and not where there is room; then nothing is noted.
    pub fn note(&mut self, entry: Entry) -> Result<(), NoMemory>
        ensures ok { OnOk result (self.new.entries ≡ self.old.entries ++ entry ∷ []) }
        ensures room { self.old.room ≤ self.new.room + 1 }
        ensures succeeds { 0 < self.old.room → IsOk result }
        ensures err { OnErr result (self.new.entries ≡ self.old.entries) }
    {
        self.entries.push(entry)?;
        Ok(())
    }

    /// Lets all entries go, so that nothing is noted. The room for them stays.
    pub fn clear(&mut self)
        ensures nothing { self.new.entries ≡ [] }
        ensures room { self.old.room ≤ self.new.room }
    {
        self.entries.clear();
    }

    /// The entries as they were noted, the first first. Takes no memory.
    pub fn entries(&self) -> &[Entry]
        ensures { result.now ≡ self.now.entries }
    {
        &self.entries
    }
}
