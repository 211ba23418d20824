//! The mode, and faults settled, refused where they are to be.
ghost use Rattle.std.specs.Prelude.{◌≡◌, Some};
ghost use Rattle.calls.specs.Gates.{in_run, ready_gate, settle_gate};
ghost use Rattle.calls.specs.Replies.{quiet_reply};
ghost use Rattle.calls.specs.Views.{run_in, state_in};
ghost use Rattle.engine.specs.Views.{ended};
ghost use Rattle.paging.specs.Numbers.{privilege_number};
ghost use Rattle.runs.specs.Unit.{mode_set, settled_as};
ghost use Rattle.walk.specs.Numbers.{fault_numbers};

use crate::checks::{may_settle, ready};
use crate::plain::PlainMachine;
use memory::guest::GuestMemory;
use memory::refusal::Refusal;
use paging::access::Privilege;
use policies::policy::EvictionPolicy;
use walk::fault::Fault;

impl<M: GuestMemory, P: EvictionPolicy> PlainMachine<M, P> {
    pub fn set_mode(&mut self, mode: Privilege) -> Result<(), Refusal>
        ensures { ended (quiet_reply result) (state_in M.GuestMemory P.EvictionPolicy self.new) ≡ in_run (state_in M.GuestMemory P.EvictionPolicy self.old) ready_gate (λ r. mode_set (state_in M.GuestMemory P.EvictionPolicy self.old) r (privilege_number mode)) (run_in P.EvictionPolicy self.old) }
    {
        let hart = self.hart.as_mut().ok_or(Refusal::NoRun)?;
        ready(hart)?;
        hart.set_mode(mode);
        Ok(())
    }

    // Two calls with two contracts: what they share is the check of the fault, in `checks`.
    pub fn deliver(&mut self, fault: Fault) -> Result<(), Refusal>
        ensures { ended (quiet_reply result) (state_in M.GuestMemory P.EvictionPolicy self.new) ≡ in_run (state_in M.GuestMemory P.EvictionPolicy self.old) (λ h. settle_gate (fault_numbers fault) h.pending) (λ r. settled_as (state_in M.GuestMemory P.EvictionPolicy self.old) r (Some (record { address = fault.address; code = fault.code }))) (run_in P.EvictionPolicy self.old) }
    {
        let hart = self.hart.as_mut().ok_or(Refusal::NoRun)?;
        may_settle(hart.pending, fault)?;
        hart.deliver(fault);
        Ok(())
    }

    pub fn give_up(&mut self, fault: Fault) -> Result<(), Refusal>
        ensures { ended (quiet_reply result) (state_in M.GuestMemory P.EvictionPolicy self.new) ≡ in_run (state_in M.GuestMemory P.EvictionPolicy self.old) (λ h. settle_gate (fault_numbers fault) h.pending) (λ r. settled_as (state_in M.GuestMemory P.EvictionPolicy self.old) r r.hart.last) (run_in P.EvictionPolicy self.old) }
    {
        let hart = self.hart.as_mut().ok_or(Refusal::NoRun)?;
        may_settle(hart.pending, fault)?;
        hart.give_up();
        Ok(())
    }
}
