//! What a store buffer says of its room: full exactly at its depth. A core stalls by what a store's refusal says, and never
//! asks this.

ghost use Rattle.std.specs.Prelude.{◌≡◌, ◌<◌, ◌≤◌, true, false, length};

use store_buffer::StoreBuffer;

/// A buffer is full where it has as many stores as its depth, and not where it has fewer; it never has more.
pub fn a_full_buffer_says_so(buffer: &StoreBuffer) -> bool
    ensures full { length buffer.now.items ≡ buffer.now.depth → result ≡ true }
    ensures room { length buffer.now.items < buffer.now.depth → result ≡ false }
    ensures within { length buffer.now.items ≤ buffer.now.depth }
{
    buffer.is_full()
}
