//! A machine over a part of a memory: five frames from frame 2 on, of a memory of six. Its frame 4 is in the part but has
//! no words underneath, and its frame 5 is outside the part.
use crate::scene::{Seen, ZERO, check_run, furnish};
use engine::tallies::Tallies;
use memory::flat::Flat;
use memory::guest::{Frame, Word};
use memory::partition::Partition;
use mmu::exits::Exit;
use paging::format::{Level, Reason};
use paging::x86::X86;
use policies::old::Old;
use std::test::Fail;
use unit::machine::Machine;
use unit::requests::Call;
use walk::fault::{Depth, Fault};

/// The fault of an x86 access to a frame without words.
fn outside(address: u32, depth: Depth, frame: u32, cause: u32) -> Fault {
    Fault {
        address,
        reason: Reason::Outside,
        depth,
        frame,
        index: 0,
        code: 4096,
        cause,
    }
}

const WORDS: [(Frame, u32, Word); 7] = [
    (0, 0, 0x1007),
    (0, 1, 0x4007),
    (0, 2, 0x5007),
    (1, 0, 0x3007),
    (1, 1, 0x4007),
    (1, 2, 0x5007),
    (3, 0, 9),
];

const FOUR_FAULTS: Tallies = Tallies {
    calls: 5,
    hidden: 1,
    true_exits: 4,
    ..ZERO
};

#[test]
fn causes_are_told_apart(rt: HostRuntime) -> Result<(), Fail> {
    let Ok(part) = Partition::new(Flat::zeroed(rt.alloc(), 6)?, 2, 5) else {
        return Err(Fail::new("the partition was refused"));
    };
    let mut machine = Machine::<Partition<Flat>, X86, Old>::new(part, Old::new());
    furnish(&mut machine, &WORDS)?;
    let target = outside(0x1000, Depth::Target, 4, 1);
    let part_target = outside(0x2000, Depth::Target, 5, 2);
    let table = outside(0x40_0000, Depth::Entry(Level::Table), 4, 1);
    let part_table = outside(0x80_0000, Depth::Entry(Level::Table), 5, 2);
    let calls = [
        Call::Load(0),
        Call::Load(0x1000),
        Call::Deliver(target),
        Call::Fetch(0x2000),
        Call::Deliver(part_target),
        Call::Store(0x40_0000, 1),
        Call::GiveUp(table),
        Call::Load(0x80_0000),
        Call::GiveUp(part_table),
        Call::Switch(4),
        Call::Close,
    ];
    let expected = [
        Seen::Through(9, 3, Exit::Hidden),
        Seen::Faulted(target),
        Seen::Done(Exit::None),
        Seen::Faulted(part_target),
        Seen::Done(Exit::None),
        Seen::Faulted(table),
        Seen::Done(Exit::None),
        Seen::Faulted(part_table),
        Seen::Done(Exit::None),
        Seen::Refused(3),
        Seen::Closed(FOUR_FAULTS),
    ];
    check_run(&rt, rt.alloc(), &mut machine, 0, 2, &calls, &expected)
}
