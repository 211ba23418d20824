//! What no call is counted for: the mode, and faults that are settled.
ghost use Rattle.std.specs.Prelude.{◌≡◌, Some};
ghost use Rattle.engine.specs.Views.{hart_of, in_mode, settled, told_fault};
ghost use Rattle.paging.specs.Numbers.{privilege_number};

use crate::engine::{FaultRecord, Hart};
use paging::access::Privilege;
use walk::fault::Fault;

impl From<Fault> for FaultRecord {
    ghost from_gives = { λ f r. r ≡ record { address = f.address; code = f.code } };

    fn from(fault: Fault) -> FaultRecord {
        FaultRecord {
            address: fault.address,
            code: fault.code,
        }
    }
}

impl Hart {
    /// Sets the privilege.
    pub fn set_mode(&mut self, mode: Privilege)
        ensures { hart_of self.new ≡ in_mode (hart_of self.old) (privilege_number mode) }
    {
        self.mode = mode;
    }

    /// Nothing waits any more, and this is what the guest was last told.
    fn settle(&mut self, last: Option<FaultRecord>)
        ensures { hart_of self.new ≡ settled (hart_of self.old) (told_fault last) }
    {
        self.pending = None;
        self.last = last;
    }

    /// Tells the guest of a fault, which then waits no longer.
    pub fn deliver(&mut self, fault: Fault)
        ensures { hart_of self.new ≡ settled (hart_of self.old) (Some (record { address = fault.address; code = fault.code })) }
    {
        self.settle(Some(fault.into()));
    }

    /// Lets the fault that waits go. The guest is told nothing.
    pub fn give_up(&mut self)
        ensures { hart_of self.new ≡ settled (hart_of self.old) (told_fault self.old.last) }
    {
        self.settle(self.last);
    }
}
