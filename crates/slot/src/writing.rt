//! Single places and states, written.
ghost use Rattle.std.specs.Prelude.{◌≡◌};
ghost use Rattle.slot.specs.Slot.{change_place, copies, drop_in_slot, flag_off, sync_slot, with_sync};

use crate::slots::{Place, Shadow, Slot, SyncState};
use memory::guest::Frame;

impl Place {
    /// A leaf or a piece loses its flag.
    pub(crate) fn flag_off(&mut self)
        ensures { self.new ≡ flag_off self.old }
    {
        match self {
            Place::Empty | Place::Link { .. } => {}
            Place::Leaf { writable, .. } => *writable = false,
            Place::Piece { writable } => *writable = false,
        }
    }
}

impl Shadow {
    /// Was what the slot holds copied from the frame's words?
    fn copies(self, frame: Frame) -> bool
        ensures { result ≡ copies frame self }
    {
        matches!(self, Shadow::Directory(of) | Shadow::Table(of, _) if of == frame)
    }

    /// The same with a table's state set.
    pub(crate) fn with_sync(self, state: SyncState) -> Shadow
        ensures { result ≡ with_sync state self }
    {
        match self {
            Shadow::Table(frame, _) => Shadow::Table(frame, state),
            other => other,
        }
    }
}

impl Slot {
    /// Writes place j.
    pub fn put(&mut self, j: usize, place: Place)
        ensures { self.new ≡ change_place j (λ _. place) self.old }
    {
        // Not by `get_mut`: once its borrow is over, a proof knows no place.
        if j < self.places.len() {
            self.places[j] = place;
        }
    }

    /// Takes the flag off the leaf or piece at place j.
    pub fn flag_off(&mut self, j: usize)
        ensures { self.new ≡ change_place j flag_off self.old }
    {
        // Not by `get_mut`: once its borrow is over, a proof knows no place.
        if j < self.places.len() {
            self.places[j].flag_off();
        }
    }

    /// Empties what was copied of one word of a frame.
    pub fn drop_entry(&mut self, frame: Frame, index: usize)
        ensures { self.new ≡ drop_in_slot frame index self.old }
    {
        if self.shadow.copies(frame) {
            self.put(index, Place::Empty);
        }
    }

    /// Sets the state of the table that is shadowed.
    pub fn set_sync(&mut self, state: SyncState)
        ensures { self.new ≡ sync_slot state self.old }
    {
        self.shadow = self.shadow.with_sync(state);
    }
}
