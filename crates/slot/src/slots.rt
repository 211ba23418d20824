//! A slot and what it holds. It knows neither memory nor page format: it keeps what it is told.
use memory::guest::{FRAME_WORDS, Frame, Word};
pub use policies::policy::SlotNumber;

/// The places of a slot, one for each word of a frame.
pub const PLACES: usize = FRAME_WORDS;

/// How a table's slot stands to the table's frame.
#[derive(Clone, Copy, PartialEq)]
pub enum SyncState {
    /// No store reaches the frame unseen.
    Protected,
    /// Stores may have changed the frame since its words were copied.
    Unsynchronised,
}

/// What a slot shadows.
#[derive(Clone, Copy, PartialEq)]
pub enum Shadow {
    Nothing,
    /// The directory in a root frame.
    Directory(Frame),
    /// The table in a frame.
    Table(Frame, SyncState),
    /// The 1,024 frames of a large page, from this one on.
    Split(Frame),
}

/// What a slot can be asked to shadow.
#[derive(Clone, Copy)]
pub enum Thing {
    Directory(Frame),
    Table(Frame),
    Split(Frame),
}

/// What stands at an index of a slot.
// A link has a slot's number and no reference: the table is fixed, and numbers are what policies speak of too.
#[derive(Clone, Copy, PartialEq)]
pub enum Place {
    Empty,
    /// In a directory's slot: the word copied, and the slot of the table or split below.
    Link {
        word: Word,
        slot: SlotNumber,
    },
    /// In a table's slot: the word copied, the frame that it aims at, and whether a store may go through.
    Leaf {
        word: Word,
        aim: Frame,
        writable: bool,
    },
    /// In a split's slot: whether a store may go through. It aims at the split's first frame plus its index.
    Piece {
        writable: bool,
    },
}

/// One shadow, with its places.
#[derive(Clone, Copy)]
pub struct Slot {
    pub shadow: Shadow,
    pub places: [Place; PLACES],
}
