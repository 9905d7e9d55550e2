//! What is said of a prefix that stands apart from its instruction, with `;` between them, as assemblers read it: here `;` ends a row.

use crate::quotes::{after_byte, first_word, has, last_word, up_to};
use crate::tables::is_one_of;

/// What is said of a row or a cell with a prefix at its end, where `rest` is the text from its beginning on. `None` where no prefix stands
/// there.
pub fn said_of_prefix(row: &[u8], rest: &[u8]) -> Option<&'static str> {
    let line = up_to(rest, b'\n');
    let next = up_to(after_byte(line, b';'), b';');
    let is_repeated = is_one_of("REP REPZ REPE", last_word(row));
    if is_repeated && is_one_of("NOP", first_word(next)) {
        Some("rep; nop is PAUSE, which changes no final state: leave out both, with their ;")
    } else if is_repeated && is_one_of("RET RETQ", first_word(next)) {
        Some("rep; ret ends a function: leave out both, with their ;")
    } else if !ends_with_lock(row) || next.trim_ascii().is_empty() {
        None
    } else if has(line, b"sp)") || has(line, b"sp]") {
        Some("what follows LOCK is locked for its order alone: write MFENCE for both")
    } else {
        Some("LOCK and its instruction stand in one cell, without ;: LOCK XADD [x],EAX")
    }
}

/// Whether LOCK stands before the end of a row.
fn ends_with_lock(row: &[u8]) -> bool {
    last_word(row).eq_ignore_ascii_case(b"LOCK")
}
