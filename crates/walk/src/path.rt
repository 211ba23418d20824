//! What a walk reads on its way.
ghost use Rattle.std.specs.Prelude.{◌≡◌, ◌/◌, ◌%◌, ◌^◌, ◌<◌, None};
ghost use Rattle.memory.specs.Memory.{frame_words};
ghost use Rattle.paging.specs.Numbers.{level_number, reason_number};
ghost use Rattle.paging.specs.Terms.{target_level};
ghost use Rattle.walk.specs.Numbers.{entry_seen, place_spot};
ghost use Rattle.walk.specs.Walk.{directory_index, spot, table_index, word_index};

use crate::fault::{Depth, Place, Stop};
use memory::guest::{Frame, Word};
use paging::access::Address;
use paging::format::{Level, Reason};

/// The index that an address names from a bit on.
fn index_from<const BIT: u32>(address: Address) -> u32
    requires { BIT < 32 }
    ensures { result ≡ address / 2 ^ BIT % frame_words }
{
    (address >> BIT) % 1024
}

/// The index that an address has in the directory.
pub fn directory_index(address: Address) -> u32
    ensures { result ≡ directory_index address }
{
    index_from::<22>(address)
}

/// The index that an address has in a table.
pub fn table_index(address: Address) -> u32
    ensures { result ≡ table_index address }
{
    index_from::<12>(address)
}

/// The index of the word that an address names in its page.
pub fn word_index(address: Address) -> u32
    ensures { result ≡ word_index address }
{
    index_from::<2>(address)
}

impl Place {
    /// Where an entry of a level stands.
    pub(crate) fn entry(level: Level, frame: Frame, index: u32) -> Place
        ensures { place_spot result ≡ spot (level_number level) frame index }
    {
        Place {
            depth: Depth::Entry(level),
            frame,
            index,
        }
    }

    /// Where the word that an address names stands in the target.
    pub(crate) fn target(frame: Frame, address: Address) -> Place
        ensures { place_spot result ≡ spot target_level frame (word_index address) }
    {
        Place {
            depth: Depth::Target,
            frame,
            index: word_index(address),
        }
    }
}

/// An entry that a walk read.
#[derive(Clone, Copy, PartialEq, Eq, Debug)]
pub struct EntryRead {
    pub level: Level,
    pub frame: Frame,
    pub index: u32,
    pub word: Word,
}

impl EntryRead {
    /// A walk that stops at this entry.
    pub fn stop(self, reason: Reason) -> Stop
        ensures place { place_spot result.place ≡ (entry_seen self).spot }
        ensures reason { reason_number result.reason ≡ reason_number reason }
        ensures cause { result.cause ≡ None }
    {
        Stop {
            reason,
            place: Place::entry(self.level, self.frame, self.index),
            cause: None,
        }
    }
}

/// Where a walk came out: the frame, the directory's entry, and the table's where there was one.
#[derive(Clone, Copy, PartialEq, Eq, Debug)]
pub struct Walked {
    pub target: Frame,
    pub directory: EntryRead,
    pub table: Option<EntryRead>,
}
