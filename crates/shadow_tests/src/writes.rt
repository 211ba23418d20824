//! Single places and states.
use crate::scene::{all_stand, leaf, link, piece, scene};
use shadow::slots::SlotTable;
use slot::slots::{Place, Shadow, SyncState};

/// A new table, and writes past its ends, which do nothing.
#[test]
fn ends(rt: HostRuntime) {
    let mut table = SlotTable::new(2);
    table.write_leaf(8, 0, 1, 2, true);
    table.write_piece(7, 1024, true);
    table.set_sync(8, SyncState::Unsynchronised);
    table.evict(9);
    for i in 0..10 {
        assert!(rt; table.shadow(i) == Shadow::Nothing);
        assert!(rt; table.place(i, 0) == Place::Empty);
        assert!(rt; table.place(i, 1023) == Place::Empty);
        assert!(rt; table.place(i, 1024) == Place::Empty);
    }
    table.write_link(7, 1023, 4, 6);
    assert!(rt; table.place(7, 1023) == link(4, 6));
    assert!(rt; table.place(7, 1022) == Place::Empty);
}

#[test]
fn flags_and_states(rt: HostRuntime) {
    let mut table = scene();
    table.flag_off(0, 5);
    table.flag_off(1, 8);
    table.flag_off(1, 9);
    table.flag_off(2, 4);
    let expected = [
        (0, 5, link(0x801, 1)),
        (1, 7, leaf(0x10_10c7, 1028, true)),
        (1, 8, leaf(0x8c7, 2, false)),
        (1, 9, Place::Empty),
        (2, 4, piece(false)),
        (2, 5, piece(true)),
    ];
    all_stand(&rt, &table, &expected);
    table.set_sync(0, SyncState::Unsynchronised);
    table.set_sync(1, SyncState::Unsynchronised);
    assert!(rt; table.shadow(0) == Shadow::Directory(1));
    assert!(rt; table.shadow(1) == Shadow::Table(2, SyncState::Unsynchronised));
    table.set_sync(1, SyncState::Protected);
    assert!(rt; table.shadow(1) == Shadow::Table(2, SyncState::Protected));
}

/// Of what was copied from a word, all goes, in directories and tables.
#[test]
fn entries_drop(rt: HostRuntime) {
    let mut table = scene();
    table.drop_entry(1, 5);
    table.drop_entry(2, 8);
    table.drop_entry(1024, 4);
    let expected = [
        (0, 5, Place::Empty),
        (0, 6, link(0x10_00c7, 2)),
        (3, 5, link(0x801, 1)),
        (1, 7, leaf(0x10_10c7, 1028, true)),
        (1, 8, Place::Empty),
        (2, 4, piece(true)),
    ];
    all_stand(&rt, &table, &expected);
}
