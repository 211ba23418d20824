//! Checking what was copied against the words of a frame.
ghost use Rattle.std.specs.Prelude.{◌≡◌};
ghost use Rattle.slot.specs.Slot.{check_slot};
ghost use Rattle.shadow.specs.Slots.{change_slot, check_at, check_table};

use crate::slots::SlotTable;
use memory::guest::{FRAME_WORDS, Word};
use slot::slots::{Shadow, SlotNumber};

impl SlotTable {
    /// Empties place j of slot i where it is a leaf that was copied from another word.
    pub fn check_place(&mut self, i: SlotNumber, j: usize, word: Word)
        ensures { self.new ≡ check_at i j word self.old }
    {
        // Not by `get_mut`: once its borrow is over, a proof knows no slot.
        if i < self.slots.len() {
            self.slots[i].check_place(j, word);
        }
    }

    fn check_slot(&mut self, i: SlotNumber, words: &[Word; FRAME_WORDS])
        ensures { self.new ≡ change_slot i (check_slot words.now) self.old }
    {
        // Not by `get_mut`: once its borrow is over, a proof knows no slot.
        if i < self.slots.len() {
            self.slots[i].check(words);
        }
    }

    /// Checks the table that slot i shadows against the words of its frame. It is protected from then on, and its frame guarded.
    pub fn check_table(&mut self, i: SlotNumber, words: &[Word; FRAME_WORDS])
        ensures { self.new ≡ check_table i words.now self.old }
    {
        if let Shadow::Table(frame, _) = self.shadow(i) {
            self.check_slot(i, words);
            self.guard(frame);
        }
    }
}
