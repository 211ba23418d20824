//! Each refusal, and the order in which they are tested. Memory has two frames, all zero, so that every access faults.
use crate::scene::{HOLE, Seen, ZERO, check_run, furnish, shown};
use engine::tallies::{CALL_LIMIT, Tallies};
use memory::flat::Flat;
use memory::guest::GuestMemory;
use memory::refusal::Refusal;
use mmu::exits::Exit;
use paging::access::Privilege;
use paging::format::{Level, PageFormat, Reason};
use paging::x86::X86;
use policies::hand::Hand;
use settled::Settlement;
use std::alloc::{AllocError, Global};
use std::process::Abort;
use std::test::Fail;
use unit::machine::Machine;
use unit::requests::Call;
use walk::fault::{Depth, Fault};

fn bare(heap: Global) -> Result<Machine<Flat, X86, Hand>, AllocError> {
    Ok(Machine::new(Flat::zeroed(heap, 2)?, Hand::new()))
}

/// The number of a refusal, if it is one.
fn number<T: Drop>(res: Result<T, Refusal>) -> Option<u8> {
    res.err().map(u8::from)
}

#[test]
fn no_run_comes_first(rt: HostRuntime) -> Result<(), Fail> {
    let mut machine = bare(rt.alloc())?;
    let refused = Seen::Refused(2);
    assert_eq!(rt;
        shown(settled::load(&mut machine, 1, Settlement::Deliver)),
        refused
    );
    assert_eq!(rt;
        shown(settled::store(&mut machine, 2, 5, Settlement::Deliver)),
        refused
    );
    assert_eq!(rt;
        shown(settled::fetch(&mut machine, 4, Settlement::Deliver)),
        refused
    );
    assert_eq!(rt; number(machine.flush_all()), Some(2));
    assert_eq!(rt; number(machine.flush_page(3)), Some(2));
    assert_eq!(rt; number(machine.switch(2)), Some(2));
    assert_eq!(rt; number(machine.set_mode(Privilege::User)), Some(2));
    assert_eq!(rt; number(machine.fault_record()), Some(2));
    Ok(())
}

#[test]
fn openings_in_order(rt: HostRuntime) -> Result<(), Fail> {
    let mut machine = bare(rt.alloc())?;
    assert_eq!(rt; number(machine.open(2, 1)), Some(4));
    assert_eq!(rt; number(machine.open(2, 9)), Some(4));
    assert_eq!(rt; number(machine.open(0, 0)), Some(4));
    assert_eq!(rt; number(machine.open(2, 2)), Some(3));
    assert_eq!(rt; number(machine.open(4096, 8)), Some(3));
    assert_eq!(rt; number(machine.open(1, 8)), None);
    assert_eq!(rt; number(machine.open(2, 9)), Some(1));
    Ok(())
}

#[test]
fn pokes_in_order(rt: HostRuntime) -> Result<(), Fail> {
    let mut machine = bare(rt.alloc())?;
    assert_eq!(rt; number(machine.poke(2, 1024, 7)), Some(8));
    assert_eq!(rt; number(machine.poke(0, 1024, 7)), Some(8));
    assert_eq!(rt; number(machine.poke(2, 1023, 7)), Some(3));
    assert_eq!(rt; number(machine.poke(0, 1023, 7)), None);
    assert_eq!(rt; machine.memory().read(0, 1023), Ok(7));
    assert_eq!(rt; number(machine.open(0, 2)), None);
    assert_eq!(rt; number(machine.poke(2, 1024, 8)), Some(1));
    assert_eq!(rt; number(machine.poke(0, 1023, 8)), Some(1));
    assert_eq!(rt; machine.memory().read(0, 1023), Ok(7));
    Ok(())
}

const WHILE_PENDING: [Call; 19] = [
    Call::Load(1),
    Call::Load(0),
    Call::Load(1),
    Call::Store(2, 5),
    Call::Fetch(4),
    Call::FlushAll,
    Call::FlushPage(3),
    Call::Switch(2),
    Call::SetMode(Privilege::User),
    Call::Close,
    Call::Open(2, 9),
    Call::Poke(2, 1024, 7),
    Call::Deliver(HOLE),
    Call::Deliver(HOLE),
    Call::GiveUp(HOLE),
    Call::Store(3, 5),
    Call::Switch(2),
    Call::FlushPage(3),
    Call::Close,
];

const ONE_FAULT_ONE_FLUSH: Tallies = Tallies {
    calls: 2,
    true_exits: 1,
    flush: 1,
    ..ZERO
};

/// While a fault is pending nothing but its settlement is accepted, and the figures count what was accepted.
#[test]
fn pending_fault_refuses(rt: HostRuntime) -> Result<(), Fail> {
    let expected = [
        Seen::Refused(5),
        Seen::Faulted(HOLE),
        Seen::Refused(6),
        Seen::Refused(6),
        Seen::Refused(6),
        Seen::Refused(6),
        Seen::Refused(6),
        Seen::Refused(6),
        Seen::Refused(6),
        Seen::Refused(6),
        Seen::Refused(1),
        Seen::Refused(1),
        Seen::Done(Exit::None),
        Seen::Refused(10),
        Seen::Refused(10),
        Seen::Refused(5),
        Seen::Refused(3),
        Seen::Done(Exit::Flush),
        Seen::Closed(ONE_FAULT_ONE_FLUSH),
    ];
    let mut machine = bare(rt.alloc())?;
    check_run(
        &rt,
        rt.alloc(),
        &mut machine,
        0,
        2,
        &WHILE_PENDING,
        &expected,
    )
}

/// Faults that differ from the one at the hole in one field each.
const OTHERS: [Fault; 8] = [
    Fault { address: 4, ..HOLE },
    Fault {
        reason: Reason::Denied,
        ..HOLE
    },
    Fault {
        depth: Depth::Entry(Level::Table),
        ..HOLE
    },
    Fault {
        depth: Depth::Target,
        ..HOLE
    },
    Fault { frame: 1, ..HOLE },
    Fault { index: 1, ..HOLE },
    Fault { code: 1, ..HOLE },
    Fault { cause: 1, ..HOLE },
];

fn check_other(rt: &impl Abort, heap: Global, other: Fault) -> Result<(), Fail> {
    let calls = [
        Call::Load(0),
        Call::Deliver(other),
        Call::GiveUp(other),
        Call::GiveUp(HOLE),
        Call::Close,
    ];
    let report = Tallies {
        calls: 1,
        true_exits: 1,
        ..ZERO
    };
    let expected = [
        Seen::Faulted(HOLE),
        Seen::Refused(10),
        Seen::Refused(10),
        Seen::Done(Exit::None),
        Seen::Closed(report),
    ];
    let mut machine = bare(heap)?;
    check_run(rt, heap, &mut machine, 0, 8, &calls, &expected)
}

#[test]
fn other_faults_are_refused(rt: HostRuntime) -> Result<(), Fail> {
    for other in OTHERS {
        check_other(&rt, rt.alloc(), other)?;
    }
    Ok(())
}

/// Refused calls between a miss and a hit: the miss stays the only one, and memory stays as it was.
#[test]
fn refused_calls_change_nothing(rt: HostRuntime) -> Result<(), Fail> {
    let mut machine = bare(rt.alloc())?;
    furnish(&mut machine, &[(0, 0, 0x1003), (1, 0, 0x1003)])?;
    let calls = [
        Call::Load(4),
        Call::Store(5, 9),
        Call::Switch(2),
        Call::Open(1, 2),
        Call::Poke(1, 1, 9),
        Call::GiveUp(HOLE),
        Call::Load(4),
        Call::Close,
    ];
    let report = Tallies {
        calls: 2,
        hits: 1,
        hidden: 1,
        ..ZERO
    };
    let expected = [
        Seen::Through(0, 1, Exit::Hidden),
        Seen::Refused(5),
        Seen::Refused(3),
        Seen::Refused(1),
        Seen::Refused(1),
        Seen::Refused(10),
        Seen::Through(0, 1, Exit::None),
        Seen::Closed(report),
    ];
    check_run(&rt, rt.alloc(), &mut machine, 0, 2, &calls, &expected)
}

/// As many calls as may be counted are counted; then each call that would count is refused with 7, before 5 and 3 are looked at,
/// and the others go on.
#[test]
fn call_limit(rt: HostRuntime) -> Result<(), Fail> {
    let mut machine = bare(rt.alloc())?;
    let token = machine.open(0, 2)?;
    for _ in 0..CALL_LIMIT {
        assert_eq!(rt; number(machine.flush_page(0)), None);
    }
    assert_eq!(rt; number(machine.flush_page(0)), Some(7));
    assert_eq!(rt; number(machine.flush_all()), Some(7));
    assert_eq!(rt; number(machine.switch(9)), Some(7));
    assert_eq!(rt;
        shown(settled::load(&mut machine, 1, Settlement::Deliver)),
        Seen::Refused(7)
    );
    assert_eq!(rt; number(machine.set_mode(Privilege::User)), None);
    let Ok(closed) = machine.close(token) else {
        return Err(Fail::new("the close was refused"));
    };
    assert_eq!(rt; closed.report().calls, CALL_LIMIT);
    Ok(())
}
