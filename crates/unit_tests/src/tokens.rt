//! Tokens that are handed back, the fault record, and runs opened again. Memory is a directory in frame 0, of which entry
//! 0 names the table in frame 1, whose entry 0 is a page of the supervisor's: frame 1 itself.
ghost use Rattle.std.specs.Prelude.{◌≡◌};
ghost use Rattle.unit.specs.Faults.{Waits};
ghost use Rattle.unit.specs.Promises.{view};
ghost use Rattle.unit.specs.Replies.{access_reply};

use crate::scene::{Seen, ZERO, furnish, shown};
use calls::plain::AccessError;
use engine::engine::{FaultRecord, Through};
use engine::tallies::Tallies;
use memory::flat::Flat;
use memory::guest::GuestMemory;
use memory::refusal::{Refusal, Refused};
use mmu::exits::Exit;
use paging::access::{Address, Privilege};
use paging::format::PageFormat;
use paging::x86::X86;
use policies::hand::Hand;
use policies::policy::EvictionPolicy;
use settled::{Settlement, settle};
use std::alloc::Global;
use std::test::Fail;
use unit::machine::Machine;
use unit::requests::Reply;
use unit::tokens::{PendingFault, RunningToken};

fn furnished(heap: Global) -> Result<Machine<Flat, X86, Hand>, Fail> {
    let mut machine = Machine::<Flat, X86, Hand>::new(Flat::zeroed(heap, 2)?, Hand::new());
    furnish(&mut machine, &[(0, 0, 0x1003), (1, 0, 0x1003)])?;
    Ok(machine)
}

/// The code of a fault, where there is one.
fn code(reply: Reply) -> Option<u32> {
    match reply {
        Reply::Faulted(fault) => Some(fault.code),
        _ => None,
    }
}

/// The figures of the run that a token closes.
fn report(machine: &mut Machine<Flat, X86, Hand>, token: RunningToken) -> Option<Tallies> {
    machine.close(token).ok().map(|closed| closed.report())
}

/// Offers the fault of an answer to a machine that does not wait for it, and then settles it in the one that does.
/// Answers both refusals.
fn offer<M: GuestMemory, F: PageFormat, P: EvictionPolicy>(
    right: &mut Machine<M, F, P>,
    wrong: &mut Machine<M, F, P>,
    res: Result<Through, AccessError<PendingFault>>,
) -> Option<(Refusal, Refusal)>
    requires { Waits (view M.GuestMemory F.PageFormat P.EvictionPolicy right.old) (access_reply res) }
{
    match res {
        Ok(_) | Err(AccessError::Refused(_)) => None,
        Err(AccessError::Faulted(fault)) => match wrong.deliver(fault) {
            Ok(()) => None,
            Err(once) => {
                let Refused {
                    refusal: first,
                    back: fault,
                } = once;
                match wrong.give_up(fault) {
                    Ok(()) => None,
                    Err(twice) => {
                        let Refused {
                            refusal: second,
                            back: fault,
                        } = twice;
                        settle(right, fault, Settlement::Deliver);
                        Some((first, second))
                    }
                }
            }
        },
    }
}

fn load_and_offer<M: GuestMemory, F: PageFormat, P: EvictionPolicy>(
    right: &mut Machine<M, F, P>,
    wrong: &mut Machine<M, F, P>,
    address: Address,
) -> Option<(Refusal, Refusal)> {
    let res = right.load(address);
    offer(right, wrong, res)
}

#[test]
fn refused_close_hands_back(rt: HostRuntime) -> Result<(), Fail> {
    let mut right = furnished(rt.alloc())?;
    let mut wrong = furnished(rt.alloc())?;
    let token = right.open(1, 2)?;
    let Err(still) = wrong.close(token) else {
        return Err(Fail::new("closed without a run"));
    };
    assert_eq!(rt; u8::from(still.refusal), 2);
    assert_eq!(rt; still.back.root(), 1);
    assert_eq!(rt; report(&mut right, still.back), Some(ZERO));
    Ok(())
}

/// A machine without a run refuses the fault with 2, and one that waits for none with 10. It can still be settled.
#[test]
fn refused_settlement_hands_back(rt: HostRuntime) -> Result<(), Fail> {
    let mut right = furnished(rt.alloc())?;
    let mut wrong = furnished(rt.alloc())?;
    let token = right.open(0, 2)?;
    let twice = load_and_offer(&mut right, &mut wrong, 0x40_0000);
    assert_eq!(rt; twice, Some((Refusal::NoRun, Refusal::NoRun)));
    assert!(rt; wrong.open(0, 2).is_ok());
    let twice = load_and_offer(&mut right, &mut wrong, 0x80_0000);
    assert_eq!(rt; twice, Some((Refusal::OtherFault, Refusal::OtherFault)));
    assert_eq!(rt; wrong.fault_record(), Ok(None));
    let told = FaultRecord {
        address: 0x80_0000,
        code: 0,
    };
    assert_eq!(rt; right.fault_record(), Ok(Some(told)));
    let figures = Tallies {
        calls: 2,
        true_exits: 2,
        ..ZERO
    };
    assert_eq!(rt; report(&mut right, token), Some(figures));
    Ok(())
}

/// The record is absent before the first delivery, set by a delivery, left by giving up, and gone with the run.
#[test]
fn fault_record_follows_deliveries(rt: HostRuntime) -> Result<(), Fail> {
    let mut machine = furnished(rt.alloc())?;
    let token = machine.open(0, 2)?;
    assert_eq!(rt; machine.fault_record(), Ok(None));
    assert_eq!(rt;
        code(settled::load(&mut machine, 0x40_0000, Settlement::GiveUp)),
        Some(0)
    );
    assert_eq!(rt; machine.fault_record(), Ok(None));
    assert_eq!(rt;
        code(settled::store(&mut machine, 0x40_0004, 1, Settlement::Deliver)),
        Some(2)
    );
    let first = FaultRecord {
        address: 0x40_0004,
        code: 2,
    };
    assert_eq!(rt; machine.fault_record(), Ok(Some(first)));
    assert_eq!(rt; machine.set_mode(Privilege::User), Ok(()));
    assert_eq!(rt;
        code(settled::fetch(&mut machine, 0x40_0008, Settlement::GiveUp)),
        Some(4)
    );
    assert_eq!(rt; machine.fault_record(), Ok(Some(first)));
    assert_eq!(rt;
        code(settled::store(&mut machine, 0, 1, Settlement::Deliver)),
        Some(7)
    );
    let second = FaultRecord {
        address: 0,
        code: 7,
    };
    assert_eq!(rt; machine.fault_record(), Ok(Some(second)));
    assert!(rt; report(&mut machine, token).is_some());
    assert_eq!(rt; machine.fault_record(), Err(Refusal::NoRun));
    assert!(rt; machine.open(0, 2).is_ok());
    assert_eq!(rt; machine.fault_record(), Ok(None));
    Ok(())
}

const ONE_OF_EACH: Tallies = Tallies {
    calls: 5,
    hits: 1,
    hidden: 1,
    true_exits: 1,
    flush: 1,
    switch: 1,
    ..ZERO
};

/// Slots, mode and tallies of a run do not outlast it.
#[test]
fn opened_again(rt: HostRuntime) -> Result<(), Fail> {
    let mut machine = furnished(rt.alloc())?;
    let token = machine.open(0, 2)?;
    let miss = Seen::Through(0, 1, Exit::Hidden);
    let hit = Seen::Through(0, 1, Exit::None);
    assert_eq!(rt;
        shown(settled::load(&mut machine, 4, Settlement::Deliver)),
        miss
    );
    assert_eq!(rt;
        shown(settled::load(&mut machine, 4, Settlement::Deliver)),
        hit
    );
    assert_eq!(rt; machine.flush_page(7), Ok(Exit::Flush));
    assert_eq!(rt; machine.switch(0), Ok(Exit::Switch));
    assert_eq!(rt; machine.set_mode(Privilege::User), Ok(()));
    assert_eq!(rt;
        code(settled::load(&mut machine, 4, Settlement::Deliver)),
        Some(5)
    );
    assert_eq!(rt; report(&mut machine, token), Some(ONE_OF_EACH));
    let token = machine.open(0, 8)?;
    assert_eq!(rt;
        shown(settled::load(&mut machine, 4, Settlement::Deliver)),
        miss
    );
    let figures = Tallies {
        calls: 1,
        hidden: 1,
        ..ZERO
    };
    assert_eq!(rt; report(&mut machine, token), Some(figures));
    Ok(())
}
