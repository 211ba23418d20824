//! Which slots shadow what.
use crate::scene::scene;
use slot::slots::{SlotNumber, SyncState, Thing};

/// A thing, and the first slot that shadows it.
const SEARCHES: [(Thing, Option<SlotNumber>); 7] = [
    (Thing::Directory(1), Some(0)),
    (Thing::Directory(3), Some(3)),
    (Thing::Directory(2), None),
    (Thing::Table(2), Some(1)),
    (Thing::Table(1024), None),
    (Thing::Split(1024), Some(2)),
    (Thing::Split(1025), None),
];

#[test]
fn finds(rt: HostRuntime) {
    let mut table = scene();
    table.set_sync(1, SyncState::Unsynchronised);
    for (thing, slot) in SEARCHES {
        assert_eq!(rt; table.find(thing), slot);
    }
    assert_eq!(rt; table.first_empty(), Some(4));
    table.fill(4, Thing::Directory(3));
    assert_eq!(rt; table.find(Thing::Directory(3)), Some(3));
    assert_eq!(rt; table.first_empty(), None);
}

/// A frame's table may be in two slots, in two states.
#[test]
fn guarded_frames(rt: HostRuntime) {
    let mut table = scene();
    assert!(rt; table.is_directory(1) && !table.is_protected(1) && table.is_guarded(1));
    assert!(rt; !table.is_directory(2) && table.is_protected(2) && table.is_guarded(2));
    assert!(rt; !table.is_guarded(1024));
    assert!(rt; !table.is_unsynchronised(1));
    table.set_sync(1, SyncState::Unsynchronised);
    assert!(rt; table.is_unsynchronised(1) && !table.is_unsynchronised(0));
    assert!(rt; !table.is_unsynchronised(8) && !table.is_guarded(2));
    table.fill(4, Thing::Table(2));
    assert!(rt; table.is_protected(2) && table.is_guarded(2));
}

#[test]
fn permits(rt: HostRuntime) {
    let mut table = scene();
    table.fill(6, Thing::Table(4));
    let all = [true, true, true, true, false, false, false, false];
    let but_three = [true, true, true, false, false, false, false, false];
    assert_eq!(rt; table.permitted(None), all);
    assert_eq!(rt; table.permitted(Some(3)), but_three);
    assert_eq!(rt; table.permitted(Some(2)), all);
}
