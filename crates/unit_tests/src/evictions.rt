//! Slots that give way. Entry i of the directory in frame 0 names the table in frame i + 1, for i up to 7, and entry 0 of
//! each table names frame 9. Each list of calls is run twice on one machine, since the policy starts over with each run.
use crate::scene::{Seen, ZERO, furnish, shown};
use engine::tallies::Tallies;
use memory::flat::Flat;
use paging::x86::X86;
use policies::hand::Hand;
use policies::old::Old;
use policies::policy::EvictionPolicy;
use std::alloc::Global;
use std::process::Abort;
use std::test::Fail;
use unit::machine::Machine;
use unit::requests::Call;

/// Makes a run twice, and compares the figures of each.
fn check_twice<P: EvictionPolicy + Drop>(
    rt: &impl Abort,
    heap: Global,
    policy: P,
    slots: usize,
    calls: &[Call],
    figures: Tallies,
) -> Result<(), Fail> {
    let mut machine = Machine::<Flat, X86, P>::new(Flat::zeroed(heap, 10)?, policy);
    for table in 1..9u32 {
        furnish(
            &mut machine,
            &[(0, table - 1, table * 4096 + 7), (table, 0, 0x9007)],
        )?;
    }
    for _ in 0..2 {
        let Ok(replies) = machine.run(heap, 0, slots, calls) else {
            return Err(Fail::new("the run was refused"));
        };
        assert_eq!(rt;
            replies.last().copied().map(shown),
            Some(Seen::Closed(figures))
        );
    }
    Ok(())
}

const IN_TURN: [Call; 5] = [
    Call::Load(0),
    Call::Load(0x40_0000),
    Call::Load(0),
    Call::Load(0x40_0000),
    Call::Close,
];

/// The directory keeps its slot, so that two tables take turns in the other one.
#[test]
fn two_slots(rt: HostRuntime) -> Result<(), Fail> {
    let figures = Tallies {
        calls: 4,
        hidden: 4,
        evictions: 3,
        ..ZERO
    };
    check_twice(&rt, rt.alloc(), Hand::new(), 2, &IN_TURN, figures)?;
    check_twice(&rt, rt.alloc(), Old::new(), 2, &IN_TURN, figures)
}

#[test]
fn three_slots(rt: HostRuntime) -> Result<(), Fail> {
    let figures = Tallies {
        calls: 4,
        hits: 2,
        hidden: 2,
        ..ZERO
    };
    check_twice(&rt, rt.alloc(), Hand::new(), 3, &IN_TURN, figures)?;
    check_twice(&rt, rt.alloc(), Old::new(), 3, &IN_TURN, figures)
}

/// Seven tables and the directory fill eight slots. The eighth table takes the slot of the first by the hand, and that of
/// the second by age, so that the first still hits.
#[test]
fn eight_slots(rt: HostRuntime) -> Result<(), Fail> {
    let calls = [
        Call::Load(0),
        Call::Load(0x40_0000),
        Call::Load(0x80_0000),
        Call::Load(0xc0_0000),
        Call::Load(0x100_0000),
        Call::Load(0x140_0000),
        Call::Load(0x180_0000),
        Call::Load(0),
        Call::Load(0x180_0000),
        Call::Load(0x1c0_0000),
        Call::Load(0x1c0_0000),
        Call::Load(0),
        Call::Close,
    ];
    let hand = Tallies {
        calls: 12,
        hits: 3,
        hidden: 9,
        evictions: 2,
        ..ZERO
    };
    let old = Tallies {
        calls: 12,
        hits: 4,
        hidden: 8,
        evictions: 1,
        ..ZERO
    };
    check_twice(&rt, rt.alloc(), Hand::new(), 8, &calls, hand)?;
    check_twice(&rt, rt.alloc(), Old::new(), 8, &calls, old)
}

/// When a third table comes, the hand stands at the first, which was used last; by age the second gives way.
#[test]
fn policies_differ(rt: HostRuntime) -> Result<(), Fail> {
    let calls = [
        Call::Load(0),
        Call::Load(0x40_0000),
        Call::Load(0),
        Call::Load(0x80_0000),
        Call::Load(0),
        Call::Close,
    ];
    let hand = Tallies {
        calls: 5,
        hits: 1,
        hidden: 4,
        evictions: 2,
        ..ZERO
    };
    let old = Tallies {
        calls: 5,
        hits: 2,
        hidden: 3,
        evictions: 1,
        ..ZERO
    };
    check_twice(&rt, rt.alloc(), Hand::new(), 3, &calls, hand)?;
    check_twice(&rt, rt.alloc(), Old::new(), 3, &calls, old)
}

/// In a switch the directory of the root in force may give way too.
#[test]
fn switches_evict_directories(rt: HostRuntime) -> Result<(), Fail> {
    let calls = [
        Call::Load(0),
        Call::Switch(1),
        Call::Switch(0),
        Call::Switch(0),
        Call::Load(0),
        Call::Close,
    ];
    let figures = Tallies {
        calls: 5,
        hidden: 2,
        switch: 3,
        evictions: 3,
        ..ZERO
    };
    check_twice(&rt, rt.alloc(), Hand::new(), 2, &calls, figures)?;
    check_twice(&rt, rt.alloc(), Old::new(), 2, &calls, figures)
}
