//! Every combination of the bits that decide rights, against the rules said in another way.
use memory::guest::Word;
use paging::access::{Kind, Privilege};
use paging::format::PageFormat;
use paging::sv32::Sv32;
use paging::x86::X86;
use std::process::Abort;

const KINDS: [Kind; 3] = [Kind::Load, Kind::Store, Kind::Fetch];

const PRIVILEGES: [Privilege; 2] = [Privilege::User, Privilege::Supervisor];

/// Sv32 as one comparison: of U and the right's bit, exactly the wanted ones are set.
fn sv32_expects(word: Word, kind: Kind, privilege: Privilege) -> bool {
    let right: Word = match kind {
        Kind::Load => 0x2,
        Kind::Store => 0x4,
        Kind::Fetch => 0x8,
    };
    let user: Word = match privilege {
        Privilege::User => 0x10,
        Privilege::Supervisor => 0,
    };
    word & (right | 0x10) == right | user
}

/// x86 as one mask: the bits wanted are set in both words.
fn x86_expects(upper: Word, lower: Word, kind: Kind, privilege: Privilege) -> bool {
    let write: Word = match kind {
        Kind::Store => 0x2,
        _ => 0,
    };
    let user: Word = match privilege {
        Privilege::User => 0x4,
        Privilege::Supervisor => 0,
    };
    upper & lower & (write | user) == write | user
}

/// All ways to ask, of one page word and one directory word.
fn agree(rt: &impl Abort, upper: Word, lower: Word) {
    for kind in KINDS {
        for privilege in PRIVILEGES {
            assert_eq!(rt;
                Sv32::allows(&[upper, lower], kind, privilege),
                sv32_expects(lower, kind, privilege)
            );
            assert_eq!(rt;
                Sv32::allows(&[lower], kind, privilege),
                sv32_expects(lower, kind, privilege)
            );
            assert_eq!(rt;
                X86::allows(&[upper, lower], kind, privilege),
                x86_expects(upper, lower, kind, privilege)
            );
            assert_eq!(rt;
                X86::allows(&[lower], kind, privilege),
                x86_expects(lower, lower, kind, privilege)
            );
        }
    }
}

#[test]
fn every_combination(rt: HostRuntime) {
    for upper in 0u32..32 {
        for lower in 0u32..32 {
            agree(&rt, upper, lower);
        }
    }
}
