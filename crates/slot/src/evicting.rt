//! Emptying and filling a slot.
ghost use Rattle.std.specs.Prelude.{◌≡◌};
ghost use Rattle.slot.specs.Slot.{bare, shadow_of, unlink_place, unlink_slot};

use crate::changing::change_all;
use crate::slots::{PLACES, Place, Shadow, Slot, SlotNumber, SyncState, Thing};

impl Place {
    /// A link to the slot goes.
    fn unlink(&mut self, slot: SlotNumber)
        ensures { self.new ≡ unlink_place slot self.old }
    {
        if let Place::Link { slot: below, .. } = *self
            && below == slot
        {
            *self = Place::Empty;
        }
    }
}

impl Slot {
    /// Empties every link to the slot of this number.
    pub fn unlink(&mut self, slot: SlotNumber)
        ensures { self.new ≡ unlink_slot slot self.old }
    {
        match self.shadow {
            Shadow::Directory(_) => change_all(&mut self.places, |place| place.unlink(slot)),
            Shadow::Nothing | Shadow::Table(..) | Shadow::Split(_) => {}
        }
    }

    /// Shadows something else, with all places empty.
    pub fn reset(&mut self, shadow: Shadow)
        ensures { self.new ≡ bare shadow }
    {
        self.shadow = shadow;
        self.places = [Place::Empty; PLACES];
    }
}

/// How a slot shadows a thing at first: a table is protected.
impl From<Thing> for Shadow {
    ghost from_gives = { λ t s. s ≡ shadow_of t };

    fn from(thing: Thing) -> Shadow {
        match thing {
            Thing::Directory(frame) => Shadow::Directory(frame),
            Thing::Table(frame) => Shadow::Table(frame, SyncState::Protected),
            Thing::Split(frame) => Shadow::Split(frame),
        }
    }
}
