//! 32-bit x86.
ghost use Rattle.std.specs.Prelude.{◌≡◌};
ghost use Rattle.paging.specs.Numbers.{kind_number, privilege_number, reading};
ghost use Rattle.paging.specs.X86.{word_allows, x86, x86_due, x86_reads};
ghost use Rattle.paging.specs.X86Laws as laws;
ghost use Rattle.paging.specs.Marks.{once_by, last_by};
ghost use Rattle.std.proofs.Common.{rules};

use crate::access::{Kind, Privilege};
use crate::bits::is_set;
use crate::format::{Entry, Level, PageFormat, Reason};
use memory::guest::Word;

/// 32-bit x86 paging with 4 MiB pages and supervisor write protection.
#[derive(Drop)]
pub struct X86;

const PRESENT: u32 = 0;

const WRITABLE: u32 = 1;

const FOR_USER: u32 = 2;

const ACCESSED: u32 = 5;

const DIRTY: u32 = 6;

const LARGE: u32 = 7;

const FRAME: u32 = 12;

const RESERVED: u32 = 13;

const LARGE_FRAME: u32 = 22;

/// Does one of the words read allow the access?
fn word_allows(word: Word, kind: Kind, privilege: Privilege) -> bool
    ensures { result ≡ word_allows (kind_number kind) (privilege_number privilege) word }
{
    let right = match kind {
        Kind::Store => is_set(word, WRITABLE),
        Kind::Load | Kind::Fetch => true,
    };
    let side = match privilege {
        Privilege::User => is_set(word, FOR_USER),
        Privilege::Supervisor => true,
    };
    right && side
}

/// The marks that an access leaves on a word, by how the word reads.
// Not one function with Sv32's: there no table is marked, so that only a page's two lines would be shared.
fn due(entry: Entry, kind: Kind) -> Word
    ensures { result ≡ x86_due (reading entry) (kind_number kind) }
{
    match (entry, kind) {
        (Entry::Page(_), Kind::Store) => (1 << ACCESSED) | (1 << DIRTY),
        (Entry::Page(_), Kind::Load | Kind::Fetch) => 1 << ACCESSED,
        (Entry::Table(_), _) => 1 << ACCESSED,
        (Entry::Absent | Entry::Malformed, _) => 0,
    }
}

impl PageFormat for X86 {
    ghost format = { x86 };

    ghost reading_kept = { laws.reading_kept };

    ghost rights_kept = { laws.rights_kept };

    ghost marked_once = { once_by x86_reads x86_due laws.reading_kept };

    ghost marks_last = { last_by x86_reads x86_due laws.reading_kept };

    ghost entries_marked = { laws.entries_marked };

    ghost frames_bounded = { Prim.search rules };

    ghost tables_above = { Prim.search rules };

    ghost pages_aligned = { Prim.search rules };

    fn read(level: Level, word: Word) -> Entry {
        if !is_set(word, PRESENT) {
            return Entry::Absent;
        }
        match level {
            Level::Table => Entry::Page(word >> FRAME),
            Level::Directory if !is_set(word, LARGE) => Entry::Table(word >> FRAME),
            Level::Directory if (word >> RESERVED) % 512 == 0 => Entry::Page(
                (word >> LARGE_FRAME) * 1024,
            ),
            Level::Directory => Entry::Malformed,
        }
    }

    fn allows(words: &[Word], kind: Kind, privilege: Privilege) -> bool {
        words.iter().all(|word| word_allows(*word, kind, privilege))
    }

    // The same line in each format: a shared function would be told reading and marks, and be no plainer, and a method of the trait
    // would ask one more of each format.
    fn mark(level: Level, kind: Kind, word: Word) -> Word {
        word | due(Self::read(level, word), kind)
    }

    fn code(reason: Reason, kind: Kind, privilege: Privilege) -> u32 {
        let store = match kind {
            Kind::Store => 2,
            Kind::Load | Kind::Fetch => 0,
        };
        let user = match privilege {
            Privilege::User => 4,
            Privilege::Supervisor => 0,
        };
        match reason {
            Reason::Absent => store + user,
            Reason::Malformed => 9 + store + user,
            Reason::Denied => 1 + store + user,
            Reason::Outside => 4096,
        }
    }
}
