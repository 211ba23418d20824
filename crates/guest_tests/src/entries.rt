//! Worked entries.
use memory::guest::Word;
use paging::access::{Kind, Privilege};
use paging::format::{Entry, Level, PageFormat, Reason};
use paging::sv32::Sv32;
use paging::x86::X86;
use std::process::Abort;

/// A level, a word, and how the word reads there.
type Case = (Level, Word, Entry);

const SV32_READS: [Case; 14] = [
    (Level::Directory, 0x0000_0401, Entry::Table(1)),
    (Level::Directory, 0x0000_0407, Entry::Malformed),
    (Level::Table, 0x0000_0401, Entry::Malformed),
    (Level::Table, 0x0000_0407, Entry::Page(1)),
    (Level::Table, 0x0000_0807, Entry::Page(2)),
    (Level::Table, 0xffff_fffe, Entry::Absent),
    (Level::Directory, 0x0000_0405, Entry::Malformed),
    (Level::Directory, 0x0000_040d, Entry::Malformed),
    (Level::Directory, 0x0000_0411, Entry::Malformed),
    (Level::Directory, 0x0000_0441, Entry::Malformed),
    (Level::Directory, 0x0000_0481, Entry::Malformed),
    (Level::Directory, 0x0000_0721, Entry::Table(1)),
    (Level::Directory, 0x0010_0009, Entry::Page(1024)),
    (Level::Table, 0xffff_fc03, Entry::Page(0x3f_ffff)),
];

const X86_READS: [Case; 11] = [
    (Level::Directory, 0x0040_0083, Entry::Page(1024)),
    (Level::Directory, 0x0040_2083, Entry::Malformed),
    (Level::Directory, 0x0060_0083, Entry::Malformed),
    (Level::Directory, 0x0040_1083, Entry::Page(1024)),
    (Level::Directory, 0x0000_1006, Entry::Absent),
    (Level::Table, 0x0000_1006, Entry::Absent),
    (Level::Directory, 0x0040_2003, Entry::Table(0x402)),
    (Level::Table, 0x0040_2083, Entry::Page(0x402)),
    (Level::Table, 0x0000_2007, Entry::Page(2)),
    (Level::Table, 0xffff_f001, Entry::Page(0xf_ffff)),
    (Level::Directory, 0xffc0_0081, Entry::Page(0xf_fc00)),
];

fn all_read<F: PageFormat>(rt: &impl Abort, cases: &[Case]) {
    for (level, word, entry) in cases {
        assert_eq!(rt; F::read(*level, *word), *entry);
    }
}

#[test]
fn words_read(rt: HostRuntime) {
    all_read::<Sv32>(&rt, &SV32_READS);
    all_read::<X86>(&rt, &X86_READS);
}

/// The marks and codes of the eight entries.
#[test]
fn marks_and_codes(rt: HostRuntime) {
    assert_eq!(rt;
        X86::code(Reason::Malformed, Kind::Load, Privilege::Supervisor),
        9
    );
    assert_eq!(rt; X86::code(Reason::Absent, Kind::Store, Privilege::User), 6);
    assert_eq!(rt;
        X86::mark(Level::Table, Kind::Store, 0x0000_2007),
        0x0000_2067
    );
    assert_eq!(rt;
        Sv32::code(Reason::Malformed, Kind::Store, Privilege::Supervisor),
        15
    );
    assert_eq!(rt;
        Sv32::mark(Level::Table, Kind::Store, 0x0000_0807),
        0x0000_08c7
    );
    assert!(rt; !Sv32::allows(&[0x0000_0401, 0x0000_0807], Kind::Load, Privilege::User));
    assert_eq!(rt; Sv32::code(Reason::Denied, Kind::Load, Privilege::User), 13);
}
