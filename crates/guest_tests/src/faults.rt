//! Every reason at every level, in both formats.
use memory::flat::Flat;
use memory::guest::{Frame, GuestMemory, Word};
use paging::access::{Address, Kind, Privilege};
use paging::format::{Level, PageFormat, Reason};
use paging::sv32::Sv32;
use paging::x86::X86;
use std::process::Abort;
use std::test::Fail;
use walk::fault::{Access, Depth, Fault};
use walk::walking::walk;

const DIRECTORY: Depth = Depth::Entry(Level::Directory);

const TABLE: Depth = Depth::Entry(Level::Table);

/// A word of the directory in frame 0, one of the table in frame 1, an access, and what it meets: the reason, the depth,
/// frame and index of the deciding word, and the code.
type Case = (
    Word,
    Word,
    (Kind, Privilege),
    Reason,
    (Depth, Frame, u32),
    u32,
);

/// Directory index 3, table index 5, word index 6.
const ADDRESS: Address = 0x00c0_5018;

const SV32_CASES: [Case; 9] = [
    (
        0,
        0,
        (Kind::Load, Privilege::User),
        Reason::Absent,
        (DIRECTORY, 0, 3),
        13,
    ),
    (
        0x405,
        0,
        (Kind::Store, Privilege::Supervisor),
        Reason::Malformed,
        (DIRECTORY, 0, 3),
        15,
    ),
    (
        0x1,
        0,
        (Kind::Fetch, Privilege::User),
        Reason::Absent,
        (TABLE, 0, 5),
        12,
    ),
    (
        0x401,
        0x401,
        (Kind::Fetch, Privilege::User),
        Reason::Malformed,
        (TABLE, 1, 5),
        12,
    ),
    (
        0x401,
        0x80f,
        (Kind::Store, Privilege::User),
        Reason::Denied,
        (TABLE, 1, 5),
        15,
    ),
    (
        0x3,
        0,
        (Kind::Store, Privilege::Supervisor),
        Reason::Denied,
        (DIRECTORY, 0, 3),
        15,
    ),
    (
        0x1001,
        0,
        (Kind::Load, Privilege::User),
        Reason::Outside,
        (TABLE, 4, 5),
        5,
    ),
    (
        0x401,
        0x1003,
        (Kind::Load, Privilege::Supervisor),
        Reason::Outside,
        (Depth::Target, 4, 6),
        5,
    ),
    (
        0xb,
        0,
        (Kind::Fetch, Privilege::Supervisor),
        Reason::Outside,
        (Depth::Target, 5, 6),
        1,
    ),
];

const X86_CASES: [Case; 11] = [
    (
        0,
        0,
        (Kind::Load, Privilege::User),
        Reason::Absent,
        (DIRECTORY, 0, 3),
        4,
    ),
    (
        0x2087,
        0,
        (Kind::Store, Privilege::User),
        Reason::Malformed,
        (DIRECTORY, 0, 3),
        15,
    ),
    (
        0x1007,
        0x2006,
        (Kind::Store, Privilege::Supervisor),
        Reason::Absent,
        (TABLE, 1, 5),
        2,
    ),
    (
        0x1005,
        0x2007,
        (Kind::Store, Privilege::Supervisor),
        Reason::Denied,
        (TABLE, 1, 5),
        3,
    ),
    (
        0x1003,
        0x2007,
        (Kind::Load, Privilege::User),
        Reason::Denied,
        (TABLE, 1, 5),
        5,
    ),
    (
        0x1007,
        0x2003,
        (Kind::Fetch, Privilege::User),
        Reason::Denied,
        (TABLE, 1, 5),
        5,
    ),
    (
        0x81,
        0,
        (Kind::Store, Privilege::User),
        Reason::Denied,
        (DIRECTORY, 0, 3),
        7,
    ),
    (
        0x4003,
        0,
        (Kind::Store, Privilege::User),
        Reason::Outside,
        (TABLE, 4, 5),
        4096,
    ),
    (
        0x1007,
        0x4005,
        (Kind::Store, Privilege::User),
        Reason::Denied,
        (TABLE, 1, 5),
        7,
    ),
    (
        0x1007,
        0x4007,
        (Kind::Store, Privilege::User),
        Reason::Outside,
        (Depth::Target, 4, 6),
        4096,
    ),
    (
        0x87,
        0,
        (Kind::Load, Privilege::Supervisor),
        Reason::Outside,
        (Depth::Target, 5, 6),
        4096,
    ),
];

fn all_fault<F: PageFormat>(rt: &impl Abort, memory: &mut Flat, cases: &[Case]) {
    for (directory, table, (kind, privilege), reason, (depth, frame, index), code) in cases {
        assert_eq!(rt; memory.write(0, 3, *directory), Ok(()));
        assert_eq!(rt; memory.write(1, 5, *table), Ok(()));
        let cause = u32::from(*reason == Reason::Outside);
        let fault = Fault {
            address: ADDRESS,
            reason: *reason,
            depth: *depth,
            frame: *frame,
            index: *index,
            code: *code,
            cause,
        };
        let access = Access {
            address: ADDRESS,
            kind: *kind,
            privilege: *privilege,
        };
        assert_eq!(rt; walk::<F, Flat>(memory, 0, access), Err(fault));
    }
}

#[test]
fn every_reason(rt: HostRuntime) -> Result<(), Fail> {
    let mut memory = Flat::zeroed(rt.alloc(), 4)?;
    all_fault::<Sv32>(&rt, &mut memory, &SV32_CASES);
    all_fault::<X86>(&rt, &mut memory, &X86_CASES);
    Ok(())
}

/// A root that memory lacks.
#[test]
fn no_root(rt: HostRuntime) -> Result<(), Fail> {
    let memory = Flat::zeroed(rt.alloc(), 4)?;
    let access = Access {
        address: ADDRESS,
        kind: Kind::Load,
        privilege: Privilege::User,
    };
    let fault = Fault {
        address: ADDRESS,
        reason: Reason::Outside,
        depth: DIRECTORY,
        frame: 4,
        index: 3,
        code: 5,
        cause: 1,
    };
    assert_eq!(rt; walk::<Sv32, Flat>(&memory, 4, access), Err(fault));
    Ok(())
}
