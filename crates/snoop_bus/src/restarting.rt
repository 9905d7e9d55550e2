//! A bus that begins anew, with its room: one machine runs a test again and again, and takes no memory for the next run. A
//! line that stayed in a cache would be a copy of the run before.
ghost use Rattle.std.specs.Prelude.{◌≡◌, length};
ghost use Rattle.snoop_bus.specs.Rows.{table_of_rows};
ghost use Rattle.snoop_bus.specs.Bus.{words_of, cores_of, IsCoherent, IsSameMachine};
ghost use Rattle.snoop_bus.specs.Accesses.{new_bus};

use crate::bus::SnoopBus;
use cache_set::cache::clear_caches;
use cache_set::lines::put_lines;
use protocol_tables::Protocol;

impl<P: Protocol> SnoopBus<P> {
    /// Begins anew with these words in memory, as many as before. The bus is then as `new` left it: its caches
    /// are empty, and nobody holds it. No memory is taken.
    pub fn restart(&mut self, init: &[u32])
        requires { length init.now ≡ length (words_of self.old) }
        ensures words { words_of self.new ≡ init.now }
        ensures exact { self.new ≡ new_bus (table_of_rows self.old.rows) (cores_of self.old) self.old.shape init.now }
        ensures coherent { IsCoherent self.new }
        ensures machine { IsSameMachine self.old self.new }
    {
        clear_caches(&mut self.hierarchy.caches);
        put_lines(&mut self.hierarchy.memory, self.shape, init);
        self.held = None;
    }
}
