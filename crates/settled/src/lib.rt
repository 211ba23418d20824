//! Accesses whose fault, if they have one, is settled at once.
#![tactic(auto)]

ghost use Rattle.std.specs.Prelude.{◌≡◌, Some};
ghost use Rattle.unit.specs.Faults.{Waits, waiting};
ghost use Rattle.unit.specs.Promises.{view};
ghost use Rattle.unit.specs.Replies.{access_reply};
ghost use Rattle.walk.specs.Numbers.{fault_numbers};

use calls::plain::AccessError;
use engine::engine::Through;
use memory::guest::{GuestMemory, Word};
use paging::access::Address;
use paging::format::PageFormat;
use policies::policy::EvictionPolicy;
use unit::machine::Machine;
use unit::requests::Reply;
use unit::tokens::PendingFault;

/// How a fault is settled.
#[derive(Clone, Copy)]
pub enum Settlement {
    Deliver,
    GiveUp,
}

/// Settles the fault that waits in a machine. That is never refused.
pub fn settle<M: GuestMemory, F: PageFormat, P: EvictionPolicy>(
    machine: &mut Machine<M, F, P>,
    fault: PendingFault,
    settlement: Settlement,
)
    requires { waiting (view M.GuestMemory F.PageFormat P.EvictionPolicy machine.old) ≡ Some (fault_numbers fault.fault) }
{
    // A match of two lines: a closure for either would be no plainer.
    match settlement {
        Settlement::Deliver => machine.deliver(fault).unwrap(),
        Settlement::GiveUp => machine.give_up(fault).unwrap(),
    }
}

/// What an access was answered, once its fault, if it has one, is settled.
fn finish<M: GuestMemory, F: PageFormat, P: EvictionPolicy>(
    machine: &mut Machine<M, F, P>,
    res: Result<Through, AccessError<PendingFault>>,
    settlement: Settlement,
) -> Reply
    requires { Waits (view M.GuestMemory F.PageFormat P.EvictionPolicy machine.old) (access_reply res) }
{
    match res {
        Ok(through) => through.into(),
        Err(AccessError::Refused(refusal)) => refusal.into(),
        Err(AccessError::Faulted(fault)) => {
            let said = fault.fault();
            settle(machine, fault, settlement);
            said.into()
        }
    }
}

/// Loads, and settles a fault.
pub fn load<M: GuestMemory, F: PageFormat, P: EvictionPolicy>(
    machine: &mut Machine<M, F, P>,
    address: Address,
    settlement: Settlement,
) -> Reply {
    let res = machine.load(address);
    finish(machine, res, settlement)
}

/// Stores, and settles a fault.
pub fn store<M: GuestMemory, F: PageFormat, P: EvictionPolicy>(
    machine: &mut Machine<M, F, P>,
    address: Address,
    word: Word,
    settlement: Settlement,
) -> Reply {
    let res = machine.store(address, word);
    finish(machine, res, settlement)
}

/// Fetches, and settles a fault.
pub fn fetch<M: GuestMemory, F: PageFormat, P: EvictionPolicy>(
    machine: &mut Machine<M, F, P>,
    address: Address,
    settlement: Settlement,
) -> Reply {
    let res = machine.fetch(address);
    finish(machine, res, settlement)
}
