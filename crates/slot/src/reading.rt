//! What a slot shadows, and what stands at a place.
ghost use Rattle.std.specs.Prelude.{◌≡◌, slice_index_or};
ghost use Rattle.slot.specs.Slot.{is_nothing, is_root, protects, shadows};

use crate::slots::{Place, Shadow, Slot, SyncState, Thing};
use memory::guest::Frame;

impl Shadow {
    /// Is this the thing, by kind and frame?
    pub fn is(self, thing: Thing) -> bool
        ensures { result ≡ shadows self thing }
    {
        // A table's state does not count.
        self.with_sync(SyncState::Protected) == Shadow::from(thing)
    }

    pub fn is_nothing(self) -> bool
        ensures { result ≡ is_nothing self }
    {
        self == Shadow::Nothing
    }

    /// Is this a protected table in the frame?
    pub fn protects(self, frame: Frame) -> bool
        ensures { result ≡ protects frame self }
    {
        self == Shadow::Table(frame, SyncState::Protected)
    }

    /// Is this the directory of the root, where there is one?
    pub fn is_root(self, root: Option<Frame>) -> bool
        ensures { result ≡ is_root self root }
    {
        root.is_some_and(|frame| self.is(Thing::Directory(frame)))
    }
}

impl Slot {
    /// What stands at place j: nothing past the last one.
    pub fn place(&self, j: usize) -> Place
        ensures { result ≡ slice_index_or self.now.places j Place.Empty }
    {
        self.places.get(j).copied().unwrap_or(Place::Empty)
    }
}
