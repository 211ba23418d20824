//! Accesses.
ghost use Rattle.std.specs.Prelude.{◌≡◌, ◌<◌, None};
ghost use Rattle.engine.specs.Views.{ended, outcome_reply, run_of, state_of, through_of};
ghost use Rattle.runs.specs.Terms.{faulted, through};
ghost use Rattle.runs.specs.Unit.{access_by, access_ends, fault_ends, hit_ends, root_slot, walk_ends};
ghost use Rattle.walk.specs.Numbers.{asked, fault_numbers, walked_outcome};

use crate::engine::{Engine, Hart, Through};
use crate::following::follow;
use crate::touching::touch;
use memory::guest::{Frame, GuestMemory, Word};
use mmu::exits::Exit;
use mmu::linking::link_slot;
use paging::format::PageFormat;
use policies::policy::EvictionPolicy;
use slot::slots::SlotNumber;
use walk::fault::{Access, Fault};
use walk::marking::{Marks, mark_entries};
use walk::path::{Walked, directory_index};
use walk::walking::walk;

// That fewer calls than the limit were counted is asked here, in `flushing`, `switching` and `tallies`. A counted call uses it up, so
// that a processor cannot hold it; a value beside it could, but each function would then ask that the two have one tally.
// Access and word stay apart: the walk, the marks and the slots take the access alone, and a struct of both would be
// taken apart in each of these.
impl<M: GuestMemory, P: EvictionPolicy> Engine<M, P> {
    /// An access that the slots answer, from the slot of the root's directory on.
    fn hit(
        &mut self,
        hart: &mut Hart,
        access: Access,
        word: Word,
        frame: Frame,
        directory: SlotNumber,
    ) -> Through
        requires room { hart.old.tally.figures.calls < 16777216 }
        requires root { directory ≡ root_slot hart.old.root self.old.mmu.table }
        ensures { ended (through (through_of result)) (state_of M.GuestMemory P.EvictionPolicy self.new hart.new) ≡ hit_ends P.EvictionPolicy.rule (state_of M.GuestMemory P.EvictionPolicy self.old hart.old) (run_of P.EvictionPolicy self.old hart.old) (asked access) word frame }
    {
        let index = directory_index(access.address) as usize;
        let below = link_slot(self.mmu.table.place(directory, index));
        let value = touch(&mut self.memory, access, word, frame);
        self.mmu.tell_path(directory, below);
        hart.tally.count(Exit::None, false);
        Through {
            value,
            frame,
            marks: Marks {
                directory: None,
                table: None,
            },
            exit: Exit::None,
        }
    }

    /// An access that walked and reached a frame.
    fn come_through<F: PageFormat>(
        &mut self,
        hart: &mut Hart,
        access: Access,
        word: Word,
        walked: Walked,
    ) -> Through
        requires { hart.old.tally.figures.calls < 16777216 }
        ensures { ended (through (through_of result)) (state_of M.GuestMemory P.EvictionPolicy self.new hart.new) ≡ walk_ends P.EvictionPolicy.rule F.PageFormat.format (state_of M.GuestMemory P.EvictionPolicy self.old hart.old) (run_of P.EvictionPolicy self.old hart.old) (asked access) word (walked_outcome walked) }
    {
        let marks = mark_entries::<F, M>(&mut self.memory, access.kind, walked);
        let root = hart.root;
        let frame = walked.target;
        let passage = follow::<M, F, P>(&mut self.mmu, &self.memory, root, access, frame);
        let value = touch(&mut self.memory, access, word, frame);
        hart.tally.count(passage.exit, passage.evicted);
        Through {
            value,
            frame,
            marks,
            exit: passage.exit,
        }
    }

    /// An access that walked and faulted: the fault waits.
    fn fault(&mut self, hart: &mut Hart, fault: Fault)
        requires { hart.old.tally.figures.calls < 16777216 }
        ensures { ended (faulted (fault_numbers fault)) (state_of M.GuestMemory P.EvictionPolicy self.new hart.new) ≡ fault_ends (state_of M.GuestMemory P.EvictionPolicy self.old hart.old) (run_of P.EvictionPolicy self.old hart.old) (fault_numbers fault) }
    {
        hart.pending = Some(fault);
        hart.tally.count(Exit::True, false);
    }

    /// An access that the slots do not answer: it walks. A fault of the walk waits.
    fn miss<F: PageFormat>(
        &mut self,
        hart: &mut Hart,
        access: Access,
        word: Word,
    ) -> Result<Through, Fault>
        requires { hart.old.tally.figures.calls < 16777216 }
        ensures { ended (outcome_reply result) (state_of M.GuestMemory P.EvictionPolicy self.new hart.new) ≡ access_by P.EvictionPolicy.rule F.PageFormat.format (state_of M.GuestMemory P.EvictionPolicy self.old hart.old) (run_of P.EvictionPolicy self.old hart.old) (asked access) word None }
    {
        // No `?` yet: a fault is made pending before it goes on, as it does by `?` in the call.
        match walk::<F, M>(&self.memory, hart.root, access) {
            Ok(walked) => Ok(self.come_through::<F>(hart, access, word, walked)),
            Err(fault) => {
                self.fault(hart, fault);
                Err(fault)
            }
        }
    }

    /// An access, by the slots or by a walk, charged with its exit.
    #[tactic(auto, unfolding(runs::specs::Unit::access_ends, runs::specs::Unit::hit_target))]
    pub fn access<F: PageFormat>(
        &mut self,
        hart: &mut Hart,
        access: Access,
        word: Word,
    ) -> Result<Through, Fault>
        requires { hart.old.tally.figures.calls < 16777216 }
        ensures { ended (outcome_reply result) (state_of M.GuestMemory P.EvictionPolicy self.new hart.new) ≡ access_ends P.EvictionPolicy.rule F.PageFormat.format (state_of M.GuestMemory P.EvictionPolicy self.old hart.old) (run_of P.EvictionPolicy self.old hart.old) (asked access) word }
    {
        let directory = self.mmu.root_slot(hart.root);
        match self.mmu.hit_from::<F>(access, directory) {
            Some(frame) => Ok(self.hit(hart, access, word, frame, directory)),
            None => self.miss::<F>(hart, access, word),
        }
    }
}
