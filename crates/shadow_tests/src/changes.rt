//! Guarding, checking, evicting and filling.
use crate::scene::{all_stand, leaf, link, piece, scene};
use slot::slots::{Place, Shadow, SyncState, Thing};

/// One frame in a table and a split, then both ends of the split and the frames just outside it.
#[test]
fn guards(rt: HostRuntime) {
    let mut table = scene();
    table.guard(1028);
    let one = [
        (1, 7, leaf(0x10_10c7, 1028, false)),
        (1, 8, leaf(0x8c7, 2, true)),
        (2, 4, piece(false)),
        (2, 5, piece(true)),
        (0, 5, link(0x801, 1)),
    ];
    all_stand(&rt, &table, &one);
    table.guard(1023);
    table.guard(2048);
    all_stand(&rt, &table, &[(2, 0, piece(true)), (2, 1023, piece(true))]);
    table.guard(1024);
    table.guard(2047);
    let ends = [
        (2, 0, piece(false)),
        (2, 5, piece(true)),
        (2, 1023, piece(false)),
    ];
    all_stand(&rt, &table, &ends);
}

/// A table that maps its own frame: the leaf that still agrees stays, and loses its flag.
#[test]
fn checks(rt: HostRuntime) {
    let mut table = scene();
    let mut words = [0; 1024];
    words[8] = 0x8c7;
    table.set_sync(1, SyncState::Unsynchronised);
    table.check_table(0, &words);
    table.check_table(2, &words);
    assert!(rt; table.shadow(1) == Shadow::Table(2, SyncState::Unsynchronised));
    table.check_table(1, &words);
    assert!(rt; table.shadow(1) == Shadow::Table(2, SyncState::Protected));
    let kept = [
        (1, 8, leaf(0x8c7, 2, false)),
        (0, 5, link(0x801, 1)),
        (2, 4, piece(true)),
    ];
    all_stand(&rt, &table, &kept);
    assert!(rt; table.place(1, 7) == Place::Empty);
    table.check_place(1, 8, 0x8c7);
    table.check_place(0, 5, 0);
    table.check_place(2, 4, 0);
    all_stand(&rt, &table, &kept);
    table.check_place(1, 8, 0x847);
    assert!(rt; table.place(1, 8) == Place::Empty);
}

#[test]
fn evicts_and_fills(rt: HostRuntime) {
    let mut table = scene();
    table.evict(1);
    assert!(rt; table.shadow(1) == Shadow::Nothing);
    let evicted = [
        (0, 5, Place::Empty),
        (0, 6, link(0x10_00c7, 2)),
        (3, 5, Place::Empty),
        (1, 7, Place::Empty),
        (2, 4, piece(true)),
    ];
    all_stand(&rt, &table, &evicted);
    table.fill(1, Thing::Table(9));
    assert!(rt; table.shadow(1) == Shadow::Table(9, SyncState::Protected));
    table.fill(2, Thing::Directory(9));
    assert!(rt; table.shadow(2) == Shadow::Directory(9));
    all_stand(
        &rt,
        &table,
        &[(0, 6, link(0x10_00c7, 2)), (2, 4, Place::Empty)],
    );
}
