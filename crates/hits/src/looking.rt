//! What the slots hold together.
ghost use Rattle.std.specs.Prelude.{◌≡◌};
ghost use Rattle.shadow.specs.Slots.{place_at, shadow_at};
ghost use Rattle.hits.specs.Hits.{copied_at, copied_below, copied_piece};

use crate::hits::Copied;
use memory::guest::{Frame, Word};
use shadow::slots::SlotTable;
use slot::slots::{Place, Shadow, SlotNumber};

/// A piece of whatever the slot below a link shadows: only a split has pieces.
fn copied_piece(link: Word, table_index: usize, writable: bool, below: Shadow) -> Option<Copied>
    ensures { result ≡ copied_piece link table_index writable below }
{
    let Shadow::Split(first) = below else {
        return None;
    };
    let aim = first.checked_add(Frame::try_from(table_index).ok()?)?;
    Some(Copied {
        link,
        leaf: None,
        aim,
        writable,
    })
}

/// What slot `below` holds under a link of this word.
fn copied_below(
    table: &SlotTable,
    link: Word,
    below: SlotNumber,
    table_index: usize,
) -> Option<Copied>
    ensures { result ≡ copied_below link (shadow_at below table.now) table_index (place_at below table_index table.now) }
{
    match table.place(below, table_index) {
        Place::Leaf {
            word,
            aim,
            writable,
        } => Some(Copied {
            link,
            leaf: Some(word),
            aim,
            writable,
        }),
        Place::Piece { writable } => copied_piece(link, table_index, writable, table.shadow(below)),
        Place::Empty | Place::Link { .. } => None,
    }
}

/// What stands in the way of an access from a directory's slot: the link at one index, and what is below it at the other.
pub fn copied(
    table: &SlotTable,
    directory: SlotNumber,
    directory_index: usize,
    table_index: usize,
) -> Option<Copied>
    ensures { result ≡ copied_at directory directory_index table_index table.now }
{
    let Place::Link { word, slot } = table.place(directory, directory_index) else {
        return None;
    };
    copied_below(table, word, slot, table_index)
}
