//! What a core's instructions still to come do to memory. That depends on the place alone, so it is worked out once, before the
//! search, and looked up in each state. An access that is left out would let a choice go first that has to wait.
ghost use Rattle.std.specs.Prelude.{◌≡◌, ◌==◌, Bool, ℕ, true, false, IfOk, Some, slice_get};
ghost use Rattle.tso_laws.specs.Eager.{meets};
ghost use Rattle.explorer.specs.inner.Coming.{LeavesOut, AreComing};

use crate::meeting::Meeting;
use std::alloc::Global;
use tso_terms::{Action, Instr, Loc, NoMemory};

/// Of each location whether instructions write it, and whether they write or load it.
#[derive(Clone, Copy)]
pub struct Accesses {
    /// The locations that are written.
    pub written: [bool; 16],
    /// The locations that are written or loaded.
    pub touched: [bool; 16],
}

/// No instruction makes an access.
const NO_ACCESS: Accesses = Accesses {
    written: [false; 16],
    touched: [false; 16],
};

/// The marks with one more, for this location.
fn marked(marks: [bool; 16], loc: Loc) -> [bool; 16]
    ensures { (other : ℕ) → slice_get result other ≡ Some false → (slice_get marks other ≡ Some false) × ((loc.0 == other) ≡ false) }
{
    let mut more = marks;
    if loc.0 < 16 {
        more[usize::from(loc.0)] = true;
    }
    more
}

/// What instructions do of which the first has this action, where the later ones do that.
fn before_action(action: Action, later: Accesses) -> Accesses
    ensures { (loads : Bool) (loc : ℕ) → LeavesOut result loads loc → LeavesOut later loads loc × (meets loads loc action ≡ false) }
{
    let written = later.written;
    let touched = later.touched;
    match action {
        Action::Store(loc, _) | Action::Lock(loc, _, _) => {
            let written = marked(written, loc);
            let touched = marked(touched, loc);
            Accesses { written, touched }
        }
        Action::Load(_, loc) => {
            let touched = marked(touched, loc);
            Accesses { written, touched }
        }
        Action::Move(..) | Action::Fence => later,
    }
}

/// What a core's instructions still to come do, by how many they are.
///
/// Errors: out of memory only.
pub fn accesses_to_come(alloc: Global, program: &[Instr]) -> Result<Vec<Accesses>, NoMemory>
    ensures { IfOk result (λ rows. AreComing program.now rows.items) }
{
    let mut rows = Vec::new(alloc);
    rows.push(NO_ACCESS)?;
    for left in 0..program.len() {
        let action = program[program.len() - 1 - left].action();
        let before = before_action(action, rows[left]);
        rows.push(before)?;
    }
    Ok(rows)
}

/// Whether the row leaves such accesses out.
pub fn leaves_out(row: &Accesses, meeting: Meeting) -> bool
    ensures { result ≡ true → LeavesOut row.now meeting.loads meeting.loc.0 }
{
    let marks = if meeting.loads {
        &row.touched
    } else {
        &row.written
    };
    match marks.get(usize::from(meeting.loc.0)) {
        Some(mark) => !*mark,
        None => false,
    }
}
