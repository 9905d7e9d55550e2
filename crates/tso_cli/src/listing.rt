//! What a test lists in `locations [..]` and its states leave out. The reader passes over that list, so nothing that is
//! proved rests on it.

use hints::{Cause, ListedName, listed_in};
use std::alloc::Global;
use tso_report::named::Named;
use tso_report::{Show, names_shown};
use tso_terms::{NoMemory, Test};

/// That the states of a test, which `spelling` spells, leave out what it lists and they might show; of more than one the
/// first. `None` where there is none.
///
/// Errors: out of memory only.
pub(crate) fn left_out(
    alloc: Global,
    test: &Test,
    spelling: &[u8],
    show: Show,
) -> Result<Option<Cause>, NoMemory> {
    let list = listed_in(alloc, test, spelling)?;
    let shown = names_shown(alloc, test, show)?;
    let shown_at_most = names_shown(alloc, test, Show::All)?;
    for listed in &list {
        if !is_among(&shown, listed.what) && is_among(&shown_at_most, listed.what) {
            return Ok(Some(Cause::LeftOut {
                first: listed.first,
                length: listed.length,
                is_register: matches!(listed.what, ListedName::Register(..)),
            }));
        }
    }
    Ok(None)
}

fn is_among(names: &[Named], listed: ListedName) -> bool {
    for named in names {
        let is_listed = match (*named, listed) {
            (Named::Register(core, reg), ListedName::Register(other, register)) => {
                core == other && reg.index() == register.index()
            }
            (Named::Location(loc), ListedName::Location(other)) => loc == other,
            _ => false,
        };
        if is_listed {
            return true;
        }
    }
    false
}
