//! Taking the flag of stores off whatever aims at a frame.
ghost use Rattle.std.specs.Prelude.{◌≡◌};
ghost use Rattle.slot.specs.Slot.{guard_leaf, guard_slot, in_split};

use crate::changing::change_all;
use crate::slots::{PLACES, Place, Shadow, Slot};
use memory::guest::Frame;

impl Place {
    /// A leaf that aims at the frame loses its flag.
    fn guard(&mut self, frame: Frame)
        ensures { self.new ≡ guard_leaf frame self.old }
    {
        if let Place::Leaf { aim, writable, .. } = self
            && *aim == frame
        {
            *writable = false;
        }
    }
}

/// Is the frame one of a split's?
fn in_split(frame: Frame, first: Frame) -> bool
    ensures { result ≡ in_split frame first }
{
    frame >= first && ((frame - first) as usize) < PLACES
}

impl Slot {
    /// Takes the flag off every leaf and piece that aims at the frame.
    // Not inlined: written out for each slot of a table, the loop over the places is slower.
    #[inline(never)]
    pub fn guard(&mut self, frame: Frame)
        ensures { self.new ≡ guard_slot frame self.old }
    {
        match self.shadow {
            Shadow::Nothing | Shadow::Directory(_) => {}
            Shadow::Table(..) => change_all(&mut self.places, |place| place.guard(frame)),
            Shadow::Split(first) => {
                if in_split(frame, first) {
                    self.places[(frame - first) as usize].flag_off();
                }
            }
        }
    }
}
