//! How far each core has come in an order, once with all entries and once without plain loads: a plain store may be passed
//! by plain loads and by nothing else.
ghost use Rattle.std.specs.Prelude.{◌≡◌, ◌+◌, ◌<◌, true, false, length, slice_index, slice_set, nat_lt, if◌then◌else◌};
ghost use Rattle.tso_terms.specs.ProgramOrder as program_order;
ghost use Rattle.order_breaches.specs.inner.Progress as progress;

use crate::entries::{is_write, rank};
use tso_terms::{Entry, Kind};

/// Notes that the entry's core has come as far as the entry.
pub fn reach(marks: &mut [u32], x: &Entry)
    requires { x.now.core.0 < length marks.old }
    ensures { marks.new ≡ progress.reached marks.old x.now }
{
    let core = usize::from(x.core.0);
    marks[core] = marks[core].max(rank(x) + 1);
}

/// Notes how far the entry's core has come with what plain loads may not pass.
pub fn settle(marks: &mut [u32], x: &Entry)
    requires { x.now.core.0 < length marks.old }
    ensures { marks.new ≡ progress.reached_but_for_loads marks.old x.now }
{
    if x.kind != Kind::R {
        reach(marks, x);
    }
}

/// Notes the value of a write as its location's word.
pub fn write(words: &mut [u32], x: &Entry)
    requires { program_order.is_write x.now ≡ true → x.now.loc.0 < length words.old }
    ensures { words.new ≡ progress.words_with words.old x.now }
{
    if is_write(x) {
        words[usize::from(x.loc.0)] = x.value;
    }
}

/// Whether the core of the entry has come further than the entry, a plain store's by what isn't a
/// plain load.
pub fn is_late(reached: &[u32], settled: &[u32], x: &Entry) -> bool
    requires reached { x.now.core.0 < length reached.now }
    requires settled { x.now.core.0 < length settled.now }
    ensures { result ≡ progress.is_late reached.now settled.now x.now }
{
    let core = usize::from(x.core.0);
    let mark = if x.kind == Kind::W {
        settled[core]
    } else {
        reached[core]
    };
    rank(x) + 1 < mark
}
