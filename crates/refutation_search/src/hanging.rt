//! Reads on which it hangs whether what is told of another read is so. Where a read returns one of some values, and its one source can write
//! any, it hangs on the read from which that write has its value; and so on, from write to read.

use crate::lists::NONE;
use crate::makings::Term;
use crate::setting::Setting;
use crate::state::{Group, State};

/// The read from which a write has its value, where this can be any; `NONE` where it has none.
fn read_before(setting: &Setting<'_>, state: &State, w: usize) -> usize {
    if !state.values.is_any(w) {
        return NONE;
    }
    match setting.terms.at(w) {
        Term::Returned(r) => r,
        Term::Made(_) => {
            if setting.events.at(w).is_locked {
                w.wrapping_sub(1)
            } else {
                NONE
            }
        }
        Term::Number(_) => NONE,
    }
}

/// Whether one of the sources of a read can write any value.
fn is_open(setting: &Setting<'_>, state: &State, r: usize) -> bool {
    for s in setting.locations..setting.size {
        if state.has(setting, Group::Sources, r, s) && state.values.is_any(s) {
            return true;
        }
    }
    false
}

/// The read with several sources on which it hangs whether this one returns what is told of it; `NONE` where there is none.
fn read_behind(setting: &Setting<'_>, state: &State, r: usize) -> usize {
    let mut read = r;
    for _event in 0..setting.size {
        if state.count_sources(setting, read) != 1 {
            return if is_open(setting, state, read) {
                read
            } else {
                NONE
            };
        }
        read = read_before(setting, state, state.first_source(setting, read));
        if read == NONE {
            return NONE;
        }
    }
    NONE
}

/// The read on which most hangs whether what is told of others is so: one to which a write led, else that with the fewest sources; `NONE`
/// where there is none.
pub fn hanging_read(setting: &Setting<'_>, state: &State) -> usize {
    let mut best = NONE;
    let mut fewest = NONE;
    for r in setting.locations..setting.size {
        if !setting.events.at(r).reads || state.values.is_any(r) {
            continue;
        }
        let behind = read_behind(setting, state, r);
        let count = if behind == r {
            state.count_sources(setting, r)
        } else {
            0
        };
        if (behind != NONE) & (count < fewest) {
            best = behind;
            fewest = count;
        }
    }
    best
}
