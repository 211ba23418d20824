//! Short scenes: a root in frame 1, its table in frame 2, and two slots.
use memory::flat::Flat;
use memory::guest::GuestMemory;
use mmu::exits::Exit;
use mmu::unit::{Mmu, TakenSlot};
use paging::access::{Kind, Privilege};
use paging::sv32::Sv32;
use policies::hand::Hand;
use policies::policy::EvictionPolicy;
use shadow::slots::SlotTable;
use slot::slots::{Place, Shadow, SyncState, Thing};
use std::test::Fail;
use walk::fault::Access;

const SLOT_0: TakenSlot = TakenSlot {
    slot: 0,
    evicted: false,
};

const SLOT_1: TakenSlot = TakenSlot {
    slot: 1,
    evicted: false,
};

const SLOT_1_EVICTED: TakenSlot = TakenSlot {
    slot: 1,
    evicted: true,
};

const LOAD: Access = Access {
    address: 0x0140_7000,
    kind: Kind::Load,
    privilege: Privilege::Supervisor,
};

const USER_LOAD: Access = Access {
    address: 0x0140_7000,
    kind: Kind::Load,
    privilege: Privilege::User,
};

fn two_slots() -> Mmu<Hand> {
    let mut policy = Hand::new();
    policy.start(2);
    Mmu {
        table: SlotTable::new(2),
        policy,
    }
}

/// The root's directory stays when a slot is wanted for a third thing.
#[test]
fn takes_and_evicts(rt: HostRuntime) -> Result<(), Fail> {
    let memory = Flat::zeroed(rt.alloc(), 4)?;
    let mut mmu = two_slots();
    assert!(rt; mmu.take(&memory, None, Thing::Directory(1)) == SLOT_0);
    assert_eq!(rt; mmu.root_slot(1), 0);
    assert!(rt; mmu.link(&memory, 1, 5, 0x801, Thing::Table(2)) == SLOT_1);
    assert!(rt; mmu.link(&memory, 1, 5, 0x801, Thing::Table(2)) == SLOT_1);
    assert!(rt; mmu.obtain(&memory, Some(1), Thing::Table(2)) == SLOT_1);
    assert!(rt; mmu.link(&memory, 1, 6, 0x10_00c7, Thing::Split(1024)) == SLOT_1_EVICTED);
    assert!(rt; mmu.table.shadow(0) == Shadow::Directory(1));
    assert!(rt; mmu.table.shadow(1) == Shadow::Split(1024));
    assert!(rt; mmu.table.place(0, 5) == Place::Empty);
    let link = Place::Link {
        word: 0x10_00c7,
        slot: 1,
    };
    assert!(rt; mmu.table.place(0, 6) == link);
    Ok(())
}

#[test]
fn hits_and_drops(rt: HostRuntime) -> Result<(), Fail> {
    let memory = Flat::zeroed(rt.alloc(), 4)?;
    let mut mmu = two_slots();
    mmu.take(&memory, None, Thing::Directory(1));
    assert_eq!(rt; mmu.hit::<Sv32>(LOAD, 1), None);
    mmu.link(&memory, 1, 5, 0x801, Thing::Table(2));
    mmu.table.write_leaf(1, 7, 0xcc7, 3, true);
    assert_eq!(rt; mmu.hit::<Sv32>(LOAD, 1), Some(3));
    assert_eq!(rt; mmu.hit::<Sv32>(USER_LOAD, 1), None);
    mmu.drop_page(1, 0x0140_8000);
    assert_eq!(rt; mmu.hit::<Sv32>(LOAD, 1), Some(3));
    mmu.drop_page(1, 0x0140_7ffc);
    assert_eq!(rt; mmu.hit::<Sv32>(LOAD, 1), None);
    Ok(())
}

/// A store to the table, then a check that drops what it changed, and a store to the directory.
#[test]
fn traces_and_checks(rt: HostRuntime) -> Result<(), Fail> {
    let mut memory = Flat::zeroed(rt.alloc(), 4)?;
    let mut mmu = two_slots();
    mmu.take(&memory, None, Thing::Directory(1));
    mmu.link(&memory, 1, 5, 0x801, Thing::Table(2));
    mmu.table.write_leaf(1, 7, 0xcc7, 3, true);
    mmu.table.write_leaf(1, 8, 0x8c7, 2, true);
    assert_eq!(rt; mmu.trace_store(1, 8, 3, 0), Exit::Hidden);
    assert_eq!(rt; mmu.trace_store(1, 8, 2, 8), Exit::Trace);
    assert!(rt; mmu.table.shadow(1) == Shadow::Table(2, SyncState::Unsynchronised));
    assert_eq!(rt; mmu.trace_store(1, 8, 2, 8), Exit::Hidden);
    assert_eq!(rt; memory.write(2, 8, 0x8c7), Ok(()));
    mmu.resync_all(&memory);
    assert!(rt; mmu.table.shadow(1) == Shadow::Table(2, SyncState::Protected));
    assert!(rt; mmu.table.place(1, 7) == Place::Empty);
    let guarded = Place::Leaf {
        word: 0x8c7,
        aim: 2,
        writable: false,
    };
    assert!(rt; mmu.table.place(1, 8) == guarded);
    assert_eq!(rt; mmu.trace_store(1, 8, 1, 5), Exit::Trace);
    assert!(rt; mmu.table.place(0, 5) == Place::Empty);
    Ok(())
}
