//! Sv32.
ghost use Rattle.std.specs.Prelude.{◌≡◌, ◌&&◌};
ghost use Rattle.paging.specs.Numbers.{kind_number, privilege_number, reading};
ghost use Rattle.paging.specs.Sv32.{page_word, right, side, sv32, sv32_due, sv32_reads};
ghost use Rattle.paging.specs.Sv32Laws as laws;
ghost use Rattle.paging.specs.Marks.{once_by, last_by};
ghost use Rattle.std.proofs.Common.{rules};

use crate::access::{Kind, Privilege};
use crate::bits::is_set;
use crate::format::{Entry, Level, PageFormat, Reason};
use memory::guest::Word;

/// Sv32, with marks written by the walk.
#[derive(Drop)]
pub struct Sv32;

const VALID: u32 = 0;

const READABLE: u32 = 1;

const WRITABLE: u32 = 2;

const EXECUTABLE: u32 = 3;

const FOR_USER: u32 = 4;

const ACCESSED: u32 = 6;

const DIRTY: u32 = 7;

const FRAME: u32 = 10;

/// The last word read, which is the page's own; 0 where none was read.
fn page_word(words: &[Word]) -> Word
    ensures { result ≡ page_word words.now }
{
    words.last().copied().unwrap_or(0)
}

/// Does a page's own word allow the access?
fn page_allows(word: Word, kind: Kind, privilege: Privilege) -> bool
    ensures { result ≡ (right (kind_number kind) word && side (privilege_number privilege) word) }
{
    let right = match kind {
        Kind::Load => is_set(word, READABLE),
        Kind::Store => is_set(word, WRITABLE),
        Kind::Fetch => is_set(word, EXECUTABLE),
    };
    let side = match privilege {
        Privilege::User => is_set(word, FOR_USER),
        Privilege::Supervisor => !is_set(word, FOR_USER),
    };
    right && side
}

/// The marks that an access leaves on a word, by how the word reads.
// Not one function with x86's: there a table is marked too, so that only a page's two lines would be shared.
fn due(entry: Entry, kind: Kind) -> Word
    ensures { result ≡ sv32_due (reading entry) (kind_number kind) }
{
    match (entry, kind) {
        (Entry::Page(_), Kind::Store) => (1 << ACCESSED) | (1 << DIRTY),
        (Entry::Page(_), Kind::Load | Kind::Fetch) => 1 << ACCESSED,
        (Entry::Absent | Entry::Malformed | Entry::Table(_), _) => 0,
    }
}

impl PageFormat for Sv32 {
    ghost format = { sv32 };

    ghost reading_kept = { laws.reading_kept };

    ghost rights_kept = { laws.rights_kept };

    ghost marked_once = { once_by sv32_reads sv32_due laws.reading_kept };

    ghost marks_last = { last_by sv32_reads sv32_due laws.reading_kept };

    ghost entries_marked = { laws.entries_marked };

    ghost frames_bounded = { Prim.search rules };

    ghost tables_above = { Prim.search rules };

    ghost pages_aligned = { Prim.search rules };

    fn read(level: Level, word: Word) -> Entry {
        if !is_set(word, VALID) {
            return Entry::Absent;
        }
        if is_set(word, WRITABLE) && !is_set(word, READABLE) {
            return Entry::Malformed;
        }
        let frame = word >> FRAME;
        let leaf = is_set(word, READABLE) || is_set(word, WRITABLE) || is_set(word, EXECUTABLE);
        match level {
            Level::Table if leaf => Entry::Page(frame),
            Level::Table => Entry::Malformed,
            Level::Directory if leaf && frame % 1024 == 0 => Entry::Page(frame),
            Level::Directory if leaf => Entry::Malformed,
            Level::Directory
                if is_set(word, FOR_USER) || is_set(word, ACCESSED) || is_set(word, DIRTY) =>
                Entry::Malformed,
            Level::Directory => Entry::Table(frame),
        }
    }

    fn allows(words: &[Word], kind: Kind, privilege: Privilege) -> bool {
        page_allows(page_word(words), kind, privilege)
    }

    // The same line in each format: a shared function would be told reading and marks, and be no plainer, and a method of the trait
    // would ask one more of each format.
    fn mark(level: Level, kind: Kind, word: Word) -> Word {
        word | due(Self::read(level, word), kind)
    }

    fn code(reason: Reason, kind: Kind, _privilege: Privilege) -> u32 {
        match (reason, kind) {
            (Reason::Outside, Kind::Fetch) => 1,
            (Reason::Outside, Kind::Load) => 5,
            (Reason::Outside, Kind::Store) => 7,
            (_, Kind::Fetch) => 12,
            (_, Kind::Load) => 13,
            (_, Kind::Store) => 15,
        }
    }
}
