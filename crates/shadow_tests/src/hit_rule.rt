//! The rule of hits, with each of its conditions alone missing.
use crate::scene::scene;
use hits::hits::Copied;
use hits::looking::copied;
use memory::guest::Word;
use paging::access::{Kind, Privilege};
use paging::format::PageFormat;
use paging::sv32::Sv32;
use paging::x86::X86;
use std::process::Abort;

const USER: Privilege = Privilege::User;

const SUPERVISOR: Privilege = Privilege::Supervisor;

/// The copied words, the flag, an access, and whether it hits.
type Case = (Word, Option<Word>, bool, Kind, Privilege, bool);

const SV32_CASES: [Case; 13] = [
    (0x801, Some(0xcc7), true, Kind::Store, SUPERVISOR, true),
    (0x801, Some(0xcc7), false, Kind::Store, SUPERVISOR, false),
    (0x801, Some(0xcc7), false, Kind::Load, SUPERVISOR, true),
    (0x801, Some(0xcc7), true, Kind::Store, USER, false),
    (0x801, Some(0xcc3), true, Kind::Store, SUPERVISOR, false),
    (0x801, Some(0xc47), true, Kind::Store, SUPERVISOR, false),
    (0x801, Some(0xc47), true, Kind::Load, SUPERVISOR, true),
    (0x801, Some(0xc07), true, Kind::Load, SUPERVISOR, false),
    (0x801, Some(0xc4b), true, Kind::Fetch, SUPERVISOR, true),
    (0x10_00c7, None, true, Kind::Store, SUPERVISOR, true),
    (0x10_00c7, None, false, Kind::Store, SUPERVISOR, false),
    (0x10_0047, None, true, Kind::Store, SUPERVISOR, false),
    (0x10_00c7, None, true, Kind::Fetch, SUPERVISOR, false),
];

const X86_CASES: [Case; 12] = [
    (0x1027, Some(0x2067), true, Kind::Store, USER, true),
    (0x1027, Some(0x2067), false, Kind::Store, USER, false),
    (0x1027, Some(0x2067), false, Kind::Fetch, USER, true),
    (0x1025, Some(0x2067), true, Kind::Store, USER, false),
    (0x1023, Some(0x2067), true, Kind::Load, USER, false),
    (0x1007, Some(0x2067), true, Kind::Load, USER, false),
    (0x1027, Some(0x2027), true, Kind::Store, USER, false),
    (0x1027, Some(0x2007), true, Kind::Load, USER, false),
    (0x40_00e7, None, true, Kind::Store, USER, true),
    (0x40_00e7, None, false, Kind::Store, USER, false),
    (0x40_00a7, None, true, Kind::Store, USER, false),
    (0x40_00e3, None, true, Kind::Store, USER, false),
];

fn all_hit<F: PageFormat>(rt: &impl Abort, cases: &[Case]) {
    for (link, leaf, writable, kind, privilege, hits) in cases {
        let way = Copied {
            link: *link,
            leaf: *leaf,
            aim: 6,
            writable: *writable,
        };
        assert_eq!(rt; way.hit::<F>(*kind, *privilege), hits.then_some(6));
    }
}

#[test]
fn rule(rt: HostRuntime) {
    all_hit::<Sv32>(&rt, &SV32_CASES);
    all_hit::<X86>(&rt, &X86_CASES);
}

/// What stands under two indices, and ways that lead to nothing.
#[test]
fn copies(rt: HostRuntime) {
    let mut table = scene();
    let leaf = Copied {
        link: 0x801,
        leaf: Some(0x8c7),
        aim: 2,
        writable: true,
    };
    let piece = Copied {
        link: 0x10_00c7,
        leaf: None,
        aim: 1028,
        writable: true,
    };
    assert!(rt; copied(&table, 0, 5, 8) == Some(leaf));
    assert!(rt; copied(&table, 0, 6, 4) == Some(piece));
    assert!(rt; copied(&table, 3, 5, 8) == Some(leaf));
    assert!(rt; copied(&table, 0, 5, 9) == None);
    assert!(rt; copied(&table, 0, 7, 8) == None);
    assert!(rt; copied(&table, 1, 7, 8) == None);
    assert!(rt; copied(&table, 0, 5, 1024) == None);
    assert!(rt; copied(&table, 8, 5, 8) == None);
    table.write_piece(1, 9, true);
    assert!(rt; copied(&table, 0, 5, 9) == None);
}
