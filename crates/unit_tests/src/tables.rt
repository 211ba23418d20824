//! Tables that name themselves, and frames that are directory and table at once.
use crate::scene::{Seen, check_run, furnish, marks, shown};
use memory::flat::Flat;
use memory::guest::GuestMemory;
use mmu::exits::Exit;
use paging::format::{Level, PageFormat, Reason};
use paging::sv32::Sv32;
use paging::x86::X86;
use policies::hand::Hand;
use settled::Settlement;
use std::test::Fail;
use unit::machine::Machine;
use unit::requests::Call;
use walk::fault::{Depth, Fault};
use walk::marking::{Mark, Marks};

/// A stale hit, lawful until a flush: the table in frame 1 names itself at index 3.
#[test]
fn table_that_names_itself(rt: HostRuntime) -> Result<(), Fail> {
    let mut machine = Machine::<Flat, X86, Hand>::new(Flat::zeroed(rt.alloc(), 4)?, Hand::new());
    furnish(
        &mut machine,
        &[(0, 1, 0x1007), (1, 2, 0x2007), (1, 3, 0x1007)],
    )?;
    let hole = Fault {
        address: 0x40_2004,
        reason: Reason::Absent,
        depth: Depth::Entry(Level::Table),
        frame: 1,
        index: 2,
        code: 0,
        cause: 0,
    };
    let calls = [
        Call::Store(0x40_2004, 5),
        Call::Store(0x40_3008, 0),
        Call::Load(0x40_2004),
        Call::FlushAll,
        Call::Load(0x40_2004),
    ];
    let expected = [
        Seen::Through(5, 2, Exit::Hidden),
        Seen::Through(0, 1, Exit::Trace),
        Seen::Through(5, 2, Exit::None),
        Seen::Done(Exit::Flush),
        Seen::Faulted(hole),
    ];
    check_run(&rt, rt.alloc(), &mut machine, 0, 2, &calls, &expected)?;
    assert_eq!(rt; machine.memory().read(0, 1), Ok(0x1027));
    assert_eq!(rt; machine.memory().read(1, 2), Ok(0));
    assert_eq!(rt; machine.memory().read(1, 3), Ok(0x1067));
    Ok(())
}

/// The root's word 0 names the root, so it is the directory's word and the table's at once. A store marks it twice.
#[test]
fn one_word_marked_twice(rt: HostRuntime) -> Result<(), Fail> {
    let mut machine = Machine::<Flat, X86, Hand>::new(Flat::zeroed(rt.alloc(), 1)?, Hand::new());
    furnish(&mut machine, &[(0, 0, 7)])?;
    assert!(rt; machine.open(0, 2).is_ok());
    let reply = settled::store(&mut machine, 8, 5, Settlement::Deliver);
    assert_eq!(rt; shown(reply), Seen::Through(5, 0, Exit::Trace));
    let both = Marks {
        directory: Some(Mark {
            frame: 0,
            index: 0,
            word: 0x27,
        }),
        table: Some(Mark {
            frame: 0,
            index: 0,
            word: 0x67,
        }),
    };
    assert_eq!(rt; marks(reply), Some(both));
    let reply = settled::load(&mut machine, 0, Settlement::Deliver);
    assert_eq!(rt; shown(reply), Seen::Through(0x67, 0, Exit::None));
    assert_eq!(rt;
        shown(settled::load(&mut machine, 8, Settlement::Deliver)),
        Seen::Through(5, 0, Exit::None)
    );
    Ok(())
}

/// A load marks such a word once, as the directory's.
#[test]
fn one_word_marked_once(rt: HostRuntime) -> Result<(), Fail> {
    let mut machine = Machine::<Flat, X86, Hand>::new(Flat::zeroed(rt.alloc(), 1)?, Hand::new());
    furnish(&mut machine, &[(0, 0, 7)])?;
    assert!(rt; machine.open(0, 8).is_ok());
    let reply = settled::fetch(&mut machine, 0, Settlement::Deliver);
    assert_eq!(rt; shown(reply), Seen::Through(0x27, 0, Exit::Hidden));
    let first = Marks {
        directory: Some(Mark {
            frame: 0,
            index: 0,
            word: 0x27,
        }),
        table: None,
    };
    assert_eq!(rt; marks(reply), Some(first));
    let reply = settled::store(&mut machine, 4, 5, Settlement::Deliver);
    let second = Marks {
        directory: None,
        table: Some(Mark {
            frame: 0,
            index: 0,
            word: 0x67,
        }),
    };
    assert_eq!(rt; marks(reply), Some(second));
    Ok(())
}

/// A store to a frame that is directory and table empties the place of its word in both.
#[test]
fn directory_and_table(rt: HostRuntime) -> Result<(), Fail> {
    let mut machine = Machine::<Flat, X86, Hand>::new(Flat::zeroed(rt.alloc(), 4)?, Hand::new());
    furnish(
        &mut machine,
        &[
            (0, 0, 7),
            (0, 1, 0x1007),
            (1, 0, 0x3007),
            (2, 0, 0x3007),
            (3, 0, 9),
        ],
    )?;
    let calls = [
        Call::Load(0x1000),
        Call::Load(0x40_0000),
        Call::Load(0x1000),
        Call::Store(4, 0x2007),
        Call::Load(0x1000),
        Call::Load(0x40_0000),
        Call::Load(0x1000),
    ];
    let expected = [
        Seen::Through(0x3007, 1, Exit::Hidden),
        Seen::Through(9, 3, Exit::Hidden),
        Seen::Through(0x3027, 1, Exit::None),
        Seen::Through(0x2007, 0, Exit::Trace),
        Seen::Through(0x3007, 2, Exit::Hidden),
        Seen::Through(9, 3, Exit::Hidden),
        Seen::Through(0x3027, 2, Exit::None),
    ];
    check_run(&rt, rt.alloc(), &mut machine, 0, 4, &calls, &expected)
}

/// In Sv32 the root's word 0 names the root as a table, and word 1 is a page there and a large page in the directory.
#[test]
fn sv32_root_as_table(rt: HostRuntime) -> Result<(), Fail> {
    let mut machine = Machine::<Flat, Sv32, Hand>::new(Flat::zeroed(rt.alloc(), 2)?, Hand::new());
    furnish(&mut machine, &[(0, 0, 1), (0, 1, 7)])?;
    let pointer = Fault {
        address: 0,
        reason: Reason::Malformed,
        depth: Depth::Entry(Level::Table),
        frame: 0,
        index: 0,
        code: 13,
        cause: 0,
    };
    let calls = [
        Call::Load(0),
        Call::GiveUp(pointer),
        Call::Load(0x1000),
        Call::Load(0x40_0000),
        Call::Store(0x40_1004, 9),
        Call::Load(0x1004),
        Call::Load(0x40_1004),
    ];
    let expected = [
        Seen::Faulted(pointer),
        Seen::Done(Exit::None),
        Seen::Through(1, 0, Exit::Hidden),
        Seen::Through(1, 0, Exit::Hidden),
        Seen::Through(9, 1, Exit::Hidden),
        Seen::Through(0xc7, 0, Exit::None),
        Seen::Through(9, 1, Exit::None),
    ];
    check_run(&rt, rt.alloc(), &mut machine, 0, 3, &calls, &expected)
}
