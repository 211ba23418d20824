//! Single places and states, read and written.
ghost use Rattle.std.specs.Prelude.{◌≡◌};
ghost use Rattle.shadow.specs.Slots.{drop_entry, flag_off_at, fresh, place_at, put_place, set_sync, shadow_at};

use crate::slots::{SLOT_LIMIT, SlotTable};
use memory::guest::{Frame, Word};
use slot::changing::change_all;
use slot::slots::{PLACES, Place, Shadow, Slot, SlotNumber, SyncState};

impl SlotTable {
    /// A table with `count` slots in use, all of them empty.
    pub fn new(count: usize) -> SlotTable
        ensures { result ≡ fresh count }
    {
        let empty = Slot {
            shadow: Shadow::Nothing,
            places: [Place::Empty; PLACES],
        };
        SlotTable {
            slots: [empty; SLOT_LIMIT],
            count,
        }
    }

    /// What slot i shadows.
    pub fn shadow(&self, i: SlotNumber) -> Shadow
        ensures { result ≡ shadow_at i self.now }
    {
        self.slots
            .get(i)
            .map_or(Shadow::Nothing, |slot| slot.shadow)
    }

    /// What stands at place j of slot i.
    pub fn place(&self, i: SlotNumber, j: usize) -> Place
        ensures { result ≡ place_at i j self.now }
    {
        self.slots.get(i).map_or(Place::Empty, |slot| slot.place(j))
    }

    fn put(&mut self, i: SlotNumber, j: usize, place: Place)
        ensures { self.new ≡ put_place i j place self.old }
    {
        // Not by `get_mut`: once its borrow is over, a proof knows no slot.
        if i < self.slots.len() {
            self.slots[i].put(j, place);
        }
    }

    /// Links place j of a directory's slot i to the slot below.
    pub fn write_link(&mut self, i: SlotNumber, j: usize, word: Word, below: SlotNumber)
        ensures { self.new ≡ put_place i j (Place.Link word below) self.old }
    {
        self.put(i, j, Place::Link { word, slot: below });
    }

    /// Writes a leaf to place j of a table's slot i.
    pub fn write_leaf(&mut self, i: SlotNumber, j: usize, word: Word, aim: Frame, writable: bool)
        ensures { self.new ≡ put_place i j (Place.Leaf word aim writable) self.old }
    {
        self.put(
            i,
            j,
            Place::Leaf {
                word,
                aim,
                writable,
            },
        );
    }

    /// Writes a piece to place j of a split's slot i.
    pub fn write_piece(&mut self, i: SlotNumber, j: usize, writable: bool)
        ensures { self.new ≡ put_place i j (Place.Piece writable) self.old }
    {
        self.put(i, j, Place::Piece { writable });
    }

    /// Empties place j of slot i.
    pub fn empty_place(&mut self, i: SlotNumber, j: usize)
        ensures { self.new ≡ put_place i j Place.Empty self.old }
    {
        self.put(i, j, Place::Empty);
    }

    /// Takes the flag off the leaf or piece at place j of slot i.
    pub fn flag_off(&mut self, i: SlotNumber, j: usize)
        ensures { self.new ≡ flag_off_at i j self.old }
    {
        // Not by `get_mut`: once its borrow is over, a proof knows no slot.
        if i < self.slots.len() {
            self.slots[i].flag_off(j);
        }
    }

    /// Empties what was copied of one word of a frame.
    pub fn drop_entry(&mut self, frame: Frame, index: usize)
        ensures { self.new ≡ drop_entry frame index self.old }
    {
        change_all(&mut self.slots, |slot| slot.drop_entry(frame, index));
    }

    /// Sets the state of the table that slot i shadows.
    pub fn set_sync(&mut self, i: SlotNumber, state: SyncState)
        ensures { self.new ≡ set_sync i state self.old }
    {
        // Not by `get_mut`: once its borrow is over, a proof knows no slot.
        if i < self.slots.len() {
            self.slots[i].set_sync(state);
        }
    }
}
