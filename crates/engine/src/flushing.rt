//! Flushes.
ghost use Rattle.std.specs.Prelude.{◌≡◌, ◌<◌};
ghost use Rattle.engine.specs.Views.{ended, run_of, state_of};
ghost use Rattle.runs.specs.Terms.{done, flush};
ghost use Rattle.runs.specs.Unit.{drop_page, flushed, resync_all};

use crate::engine::{Engine, Hart};
use memory::guest::GuestMemory;
use mmu::exits::Exit;
use paging::access::Address;
use policies::policy::EvictionPolicy;

impl<M: GuestMemory, P: EvictionPolicy> Engine<M, P> {
    /// Checks every unsynchronised table.
    pub fn flush_all(&mut self, hart: &mut Hart)
        requires { hart.old.tally.figures.calls < 16777216 }
        ensures { ended (done flush) (state_of M.GuestMemory P.EvictionPolicy self.new hart.new) ≡ flushed (state_of M.GuestMemory P.EvictionPolicy self.old hart.old) (run_of P.EvictionPolicy self.old hart.old) (resync_all (M.GuestMemory.frames self.old.memory) self.old.mmu.table) }
    {
        self.mmu.resync_all(&self.memory);
        hart.tally.count(Exit::Flush, false);
    }

    /// Empties the leaf of an address under the root in force.
    pub fn flush_page(&mut self, hart: &mut Hart, address: Address)
        requires { hart.old.tally.figures.calls < 16777216 }
        ensures { ended (done flush) (state_of M.GuestMemory P.EvictionPolicy self.new hart.new) ≡ flushed (state_of M.GuestMemory P.EvictionPolicy self.old hart.old) (run_of P.EvictionPolicy self.old hart.old) (drop_page hart.old.root address self.old.mmu.table) }
    {
        self.mmu.drop_page(hart.root, address);
        hart.tally.count(Exit::Flush, false);
    }
}
