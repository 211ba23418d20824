//! Flushes and switches, refused where they are to be.
ghost use Rattle.std.specs.Prelude.{◌≡◌, if◌then◌else◌};
ghost use Rattle.calls.specs.Gates.{count_gate, in_run};
ghost use Rattle.calls.specs.Replies.{exit_reply};
ghost use Rattle.calls.specs.Views.{run_in, state_in};
ghost use Rattle.engine.specs.Views.{ended};
ghost use Rattle.memory.specs.Memory.{has_words};
ghost use Rattle.runs.specs.Unit.{drop_page, flushed, refuse, resync_all, switch_ends};

use crate::checks::{has_words, ready_to_count};
use crate::plain::PlainMachine;
use memory::guest::{Frame, GuestMemory};
use memory::refusal::Refusal;
use mmu::exits::Exit;
use paging::access::Address;
use policies::policy::EvictionPolicy;

impl<M: GuestMemory, P: EvictionPolicy> PlainMachine<M, P> {
    pub fn flush_all(&mut self) -> Result<Exit, Refusal>
        ensures { ended (exit_reply result) (state_in M.GuestMemory P.EvictionPolicy self.new) ≡ in_run (state_in M.GuestMemory P.EvictionPolicy self.old) count_gate (λ r. flushed (state_in M.GuestMemory P.EvictionPolicy self.old) r (resync_all (M.GuestMemory.frames self.old.engine.memory) r.table)) (run_in P.EvictionPolicy self.old) }
    {
        let hart = self.hart.as_mut().ok_or(Refusal::NoRun)?;
        ready_to_count(hart)?;
        self.engine.flush_all(hart);
        Ok(Exit::Flush)
    }

    pub fn flush_page(&mut self, address: Address) -> Result<Exit, Refusal>
        ensures { ended (exit_reply result) (state_in M.GuestMemory P.EvictionPolicy self.new) ≡ in_run (state_in M.GuestMemory P.EvictionPolicy self.old) count_gate (λ r. flushed (state_in M.GuestMemory P.EvictionPolicy self.old) r (drop_page r.hart.root address r.table)) (run_in P.EvictionPolicy self.old) }
    {
        let hart = self.hart.as_mut().ok_or(Refusal::NoRun)?;
        ready_to_count(hart)?;
        self.engine.flush_page(hart, address);
        Ok(Exit::Flush)
    }

    pub fn switch(&mut self, root: Frame) -> Result<Exit, Refusal>
        ensures { ended (exit_reply result) (state_in M.GuestMemory P.EvictionPolicy self.new) ≡ in_run (state_in M.GuestMemory P.EvictionPolicy self.old) count_gate (λ r. if has_words (M.GuestMemory.frames self.old.engine.memory root) then switch_ends P.EvictionPolicy.rule (state_in M.GuestMemory P.EvictionPolicy self.old) r root else refuse (state_in M.GuestMemory P.EvictionPolicy self.old) 3) (run_in P.EvictionPolicy self.old) }
    {
        let hart = self.hart.as_mut().ok_or(Refusal::NoRun)?;
        ready_to_count(hart)?;
        if !has_words(&self.engine.memory, root) {
            return Err(Refusal::NoWords);
        }
        self.engine.switch(hart, root);
        Ok(Exit::Switch)
    }
}
