//! Faults settled, and what the guest was told of them.
ghost use Rattle.std.specs.Prelude.{◌≡◌, true, is_ok, Some};
ghost use Rattle.calls.specs.Replies.{quiet_reply};
ghost use Rattle.calls.specs.Views.{run_in};
ghost use Rattle.runs.specs.Terms.{deliver, give_up};
ghost use Rattle.unit.specs.Faults.{waiting};
ghost use Rattle.unit.specs.Promises.{Promised, view};
ghost use Rattle.unit.specs.Replies.{FaultBack, record_asked, record_told, settle_reply};
ghost use Rattle.walk.specs.Numbers.{fault_numbers};

use crate::machine::Machine;
use crate::tokens::PendingFault;
use engine::engine::FaultRecord;
use memory::guest::GuestMemory;
use memory::refusal::{Refusal, Refused};
use paging::format::PageFormat;
use policies::policy::EvictionPolicy;
use walk::fault::Fault;

impl PendingFault {
    /// What the fault says.
    pub fn fault(&self) -> Fault
        ensures { result ≡ self.now.fault }
    {
        self.fault
    }
}

/// Takes a fault by what its settlement was answered, or hands it back.
// A match: a fault is let go in one arm alone, which a closure that holds it could not. `FaultBack` is what both calls promise.
fn take(fault: PendingFault, res: Result<(), Refusal>) -> Result<(), Refused<PendingFault>>
    ensures reply { settle_reply result ≡ quiet_reply res }
    ensures settles { is_ok result ≡ is_ok res }
    ensures back { FaultBack fault result }
{
    match res {
        Ok(()) => {
            let PendingFault { fault: _ } = fault;
            Ok(())
        }
        Err(refusal) => Err(Refused {
            refusal,
            back: fault,
        }),
    }
}

impl<M: GuestMemory, F: PageFormat, P: EvictionPolicy> Machine<M, F, P> {
    /// Delivers a fault: the guest is told of it.
    pub fn deliver(&mut self, fault: PendingFault) -> Result<(), Refused<PendingFault>>
        ensures promise { Promised M.GuestMemory F.PageFormat P.EvictionPolicy (deliver (fault_numbers fault.fault)) self.old (settle_reply result) self.new }
        ensures settles { waiting (view M.GuestMemory F.PageFormat P.EvictionPolicy self.old) ≡ Some (fault_numbers fault.fault) → is_ok result ≡ true }
        ensures back { FaultBack fault result }
    {
        let res = self.step_deliver(fault.fault);
        take(fault, res)
    }

    /// Gives a fault up: the guest is told nothing.
    pub fn give_up(&mut self, fault: PendingFault) -> Result<(), Refused<PendingFault>>
        ensures promise { Promised M.GuestMemory F.PageFormat P.EvictionPolicy (give_up (fault_numbers fault.fault)) self.old (settle_reply result) self.new }
        ensures settles { waiting (view M.GuestMemory F.PageFormat P.EvictionPolicy self.old) ≡ Some (fault_numbers fault.fault) → is_ok result ≡ true }
        ensures back { FaultBack fault result }
    {
        let res = self.step_give_up(fault.fault);
        take(fault, res)
    }

    /// What the guest was last told of a fault in this run.
    pub fn fault_record(&self) -> Result<Option<FaultRecord>, Refusal>
        ensures { record_told result ≡ record_asked (run_in P.EvictionPolicy self.now.plain) }
    {
        Ok(self.plain.hart.ok_or(Refusal::NoRun)?.last)
    }
}
