//! Switches of the root, and openings.
ghost use Rattle.std.specs.Prelude.{◌≡◌, ◌<◌, ◌≤◌};
ghost use Rattle.engine.specs.Views.{ended, run_of, state_of};
ghost use Rattle.runs.specs.Terms.{done, switch};
ghost use Rattle.runs.specs.Unit.{opened_at, switch_ends};

use crate::engine::{Engine, Hart};
use crate::tallies::Tally;
use memory::guest::{Frame, GuestMemory};
use mmu::exits::Exit;
use paging::access::Privilege;
use policies::policy::EvictionPolicy;
use shadow::slots::SlotTable;
use slot::slots::Thing;

impl<M: GuestMemory, P: EvictionPolicy> Engine<M, P> {
    /// Checks every unsynchronised table, and puts another root in force.
    #[tactic(auto, unfolding(runs::specs::Unit::switch_ends))]
    pub fn switch(&mut self, hart: &mut Hart, root: Frame)
        requires { hart.old.tally.figures.calls < 16777216 }
        ensures { ended (done switch) (state_of M.GuestMemory P.EvictionPolicy self.new hart.new) ≡ switch_ends P.EvictionPolicy.rule (state_of M.GuestMemory P.EvictionPolicy self.old hart.old) (run_of P.EvictionPolicy self.old hart.old) root }
    {
        self.mmu.resync_all(&self.memory);
        let taken = self.mmu.obtain(&self.memory, None, Thing::Directory(root));
        hart.root = root;
        hart.tally.count(Exit::Switch, taken.evicted);
    }

    /// Begins a run: slots, order and figures afresh, with the root's directory taken. The processor starts in supervisor mode.
    #[tactic(auto, unfolding(runs::specs::Unit::opened_at))]
    pub fn open(&mut self, root: Frame, count: usize) -> Hart
        requires { count ≤ 8 }
        ensures { state_of M.GuestMemory P.EvictionPolicy self.new result ≡ opened_at P.EvictionPolicy.rule (M.GuestMemory.frames self.old.memory) root count }
    {
        self.mmu.table = SlotTable::new(count);
        self.mmu.policy.start(count);
        let _ = self.mmu.take(&self.memory, None, Thing::Directory(root));
        Hart {
            root,
            mode: Privilege::Supervisor,
            pending: None,
            last: None,
            tally: Tally::new(),
        }
    }
}
