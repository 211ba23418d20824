//! What a page format answers.
ghost use Rattle.std.specs.Prelude.{◌≡◌, ◌≢◌, MatchResult, Some};
ghost use Rattle.paging.specs.Formats.{EntriesMarked, Format, FramesBounded, MarkedOnce, MarksLast, PagesAligned, ReadingKept, RightsKept, TablesAbove};
ghost use Rattle.paging.specs.Names.{level_name, reason_name};
ghost use Rattle.paging.specs.Numbers.{kind_number, level_number, privilege_number, reading, reason_number};
ghost use Rattle.paging.specs.declared.format.Reason.{Reason};

use crate::access::{Kind, Privilege};
use memory::guest::{Frame, Word};
use std::error::Error;
use std::fmt;

/// The level at which a word is read.
#[derive(Clone, Copy, PartialEq, Eq, Debug)]
pub enum Level {
    Directory,
    Table,
}

/// How a word reads.
#[derive(Clone, Copy, PartialEq, Eq, Debug)]
pub enum Entry {
    Absent,
    Malformed,
    /// A table, in this frame.
    Table(Frame),
    /// A page, from this frame on: one frame at table level, 1,024 at directory level.
    Page(Frame),
}

/// Why an access faults.
#[derive(Clone, Copy, PartialEq, Eq, Debug)]
pub enum Reason {
    Absent,
    Malformed,
    Denied,
    Outside,
}

/// A number that is no reason's.
#[derive(Clone, Copy, PartialEq, Eq, Debug)]
pub struct UnknownReason(pub u32);

/// How far a level is above the target.
impl From<Level> for u32 {
    ghost from_gives = { λ l n. n ≡ level_number l };

    fn from(level: Level) -> u32 {
        match level {
            Level::Directory => 2,
            Level::Table => 1,
        }
    }
}

impl fmt::Display for Level {
    ghost output = { λ l. Some (level_name l) };

    fn fmt<W: fmt::Write>(&self, f: &mut fmt::Formatter<W>) -> fmt::Result {
        f.write_str(match self {
            Level::Directory => "directory",
            Level::Table => "table",
        })
    }
}

impl TryFrom<u32> for Reason {
    type Error = UnknownReason;

    ghost try_from_gives = { λ n r. MatchResult r (λ reason. reason_number reason ≡ n) (λ e. (e.0 ≡ n) × ((reason : Reason) → reason_number reason ≢ n)) };

    fn try_from(number: u32) -> Result<Reason, UnknownReason> {
        match number {
            1 => Ok(Reason::Absent),
            2 => Ok(Reason::Malformed),
            3 => Ok(Reason::Denied),
            4 => Ok(Reason::Outside),
            _ => Err(UnknownReason(number)),
        }
    }
}

impl fmt::Display for Reason {
    ghost output = { λ r. Some (reason_name r) };

    fn fmt<W: fmt::Write>(&self, f: &mut fmt::Formatter<W>) -> fmt::Result {
        f.write_str(match self {
            Reason::Absent => "absent",
            Reason::Malformed => "malformed",
            Reason::Denied => "denied",
            Reason::Outside => "outside",
        })
    }
}

impl fmt::Display for UnknownReason {
    fn fmt<W: fmt::Write>(&self, f: &mut fmt::Formatter<W>) -> fmt::Result {
        write!(f, "no reason has number {}", self.0)
    }
}

impl Error for UnknownReason {}

/// A page format. Its answers depend on nothing but what is asked.
pub trait PageFormat {
    ghost format: { Format };

    /// How a word reads at a level.
    fn read(level: Level, word: Word) -> Entry
        ensures { reading result ≡ format.reads (level_number level) word };

    /// Do the words read, from the root down, allow the access?
    fn allows(words: &[Word], kind: Kind, privilege: Privilege) -> bool
        ensures { result ≡ format.allows words.now (kind_number kind) (privilege_number privilege) };

    /// The word as an access leaves it.
    fn mark(level: Level, kind: Kind, word: Word) -> Word
        ensures { result ≡ format.marks (level_number level) (kind_number kind) word };

    /// The code of a fault.
    fn code(reason: Reason, kind: Kind, privilege: Privilege) -> u32
        ensures { result ≡ format.code (reason_number reason) (kind_number kind) (privilege_number privilege) };

    ghost reading_kept: { ReadingKept format };

    ghost rights_kept: { RightsKept format };

    ghost marked_once: { MarkedOnce format };

    ghost marks_last: { MarksLast format };

    ghost entries_marked: { EntriesMarked format };

    ghost frames_bounded: { FramesBounded format };

    ghost tables_above: { TablesAbove format };

    ghost pages_aligned: { PagesAligned format };
}
