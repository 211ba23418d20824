//! Runs opened and closed, and words poked between them, refused where they are to be.
ghost use Rattle.std.specs.Prelude.{◌≡◌, ◌||◌, if◌then◌else◌, None, nat_lt};
ghost use Rattle.calls.specs.Gates.{between_runs, in_run, ready_gate};
ghost use Rattle.calls.specs.Replies.{close_reply, quiet_reply};
ghost use Rattle.calls.specs.Views.{run_in, state_in};
ghost use Rattle.engine.specs.Views.{ended};
ghost use Rattle.memory.specs.Memory.{has_words, stored};
ghost use Rattle.runs.specs.Terms.{closed, done, no_exit};
ghost use Rattle.runs.specs.Unit.{opened_at, refuse};

use crate::checks::{has_words, ready};
use crate::plain::PlainMachine;
use engine::tallies::Tallies;
use memory::guest::{FRAME_WORDS, Frame, GuestMemory, Word};
use memory::refusal::Refusal;
use policies::policy::EvictionPolicy;

impl<M: GuestMemory, P: EvictionPolicy> PlainMachine<M, P> {
    pub fn open(&mut self, root: Frame, slots: usize) -> Result<(), Refusal>
        ensures { ended (quiet_reply result) (state_in M.GuestMemory P.EvictionPolicy self.new) ≡ between_runs (state_in M.GuestMemory P.EvictionPolicy self.old) (if nat_lt slots 2 || nat_lt 8 slots then refuse (state_in M.GuestMemory P.EvictionPolicy self.old) 4 else (if has_words (M.GuestMemory.frames self.old.engine.memory root) then ended (done no_exit) (opened_at P.EvictionPolicy.rule (M.GuestMemory.frames self.old.engine.memory) root slots) else refuse (state_in M.GuestMemory P.EvictionPolicy self.old) 3)) (run_in P.EvictionPolicy self.old) }
    {
        if self.hart.is_some() {
            return Err(Refusal::RunOpen);
        }
        if !(2..=8).contains(&slots) {
            return Err(Refusal::SlotCount);
        }
        if !has_words(&self.engine.memory, root) {
            return Err(Refusal::NoWords);
        }
        self.hart = Some(self.engine.open(root, slots));
        Ok(())
    }

    pub fn close(&mut self) -> Result<Tallies, Refusal>
        ensures { ended (close_reply result) (state_in M.GuestMemory P.EvictionPolicy self.new) ≡ in_run (state_in M.GuestMemory P.EvictionPolicy self.old) ready_gate (λ r. ended (closed r.hart.tallies) (record { memory = M.GuestMemory.frames self.old.engine.memory; run = None })) (run_in P.EvictionPolicy self.old) }
    {
        let hart = self.hart.ok_or(Refusal::NoRun)?;
        ready(&hart)?;
        self.hart = None;
        Ok(hart.tally.figures())
    }

    pub fn poke(&mut self, frame: Frame, index: u32, word: Word) -> Result<(), Refusal>
        ensures { ended (quiet_reply result) (state_in M.GuestMemory P.EvictionPolicy self.new) ≡ between_runs (state_in M.GuestMemory P.EvictionPolicy self.old) (if nat_lt 1023 index then refuse (state_in M.GuestMemory P.EvictionPolicy self.old) 8 else (if has_words (M.GuestMemory.frames self.old.engine.memory frame) then ended (done no_exit) (record { memory = stored (M.GuestMemory.frames self.old.engine.memory) frame index word; run = None }) else refuse (state_in M.GuestMemory P.EvictionPolicy self.old) 3)) (run_in P.EvictionPolicy self.old) }
    {
        if self.hart.is_some() {
            return Err(Refusal::RunOpen);
        }
        if index as usize >= FRAME_WORDS {
            return Err(Refusal::WordIndex);
        }
        if !has_words(&self.engine.memory, frame) {
            return Err(Refusal::NoWords);
        }
        let _ = self.engine.memory.write(frame, index, word);
        Ok(())
    }
}
