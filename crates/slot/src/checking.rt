//! Checking what was copied against the words of a frame.
ghost use Rattle.std.specs.Prelude.{◌≡◌, length};
ghost use Rattle.slot.specs.Slot.{change_place, check_from, check_place, check_slot};

use crate::slots::{Place, Slot, SyncState};
use memory::guest::{FRAME_WORDS, Word};

impl Place {
    /// A leaf that was copied from another word goes.
    fn check(&mut self, word: Word)
        ensures { self.new ≡ check_place word self.old }
    {
        if let Place::Leaf { word: copied, .. } = *self
            && copied != word
        {
            *self = Place::Empty;
        }
    }
}

fn check_places(places: &mut [Place], words: &[Word])
    requires { length words.now ≡ length places.old }
    ensures { places.new ≡ check_from words.now 0 places.old }
{
    // Not by `zip`: a proof then knows no place after the loop.
    for (j, place) in places.iter_mut().enumerate() {
        place.check(words[j]);
    }
}

impl Slot {
    /// Empties place j where it is a leaf that was copied from another word.
    pub fn check_place(&mut self, j: usize, word: Word)
        ensures { self.new ≡ change_place j (check_place word) self.old }
    {
        // Not by `get_mut`: once its borrow is over, a proof knows no place.
        if j < self.places.len() {
            self.places[j].check(word);
        }
    }

    /// Checks every place against the word of its index. A table is protected from then on.
    pub fn check(&mut self, words: &[Word; FRAME_WORDS])
        ensures { self.new ≡ check_slot words.now self.old }
    {
        check_places(&mut self.places, words);
        self.shadow = self.shadow.with_sync(SyncState::Protected);
    }
}
