//! Which slots shadow what.
ghost use Rattle.std.specs.Prelude.{◌≡◌, position, take};
ghost use Rattle.slot.specs.Slot.{shadows};
ghost use Rattle.shadow.specs.Slots.{find_slot, first_empty, is_directory, is_guarded, is_protected, is_unsynchronised, may_take, permitted};

use crate::slots::{SLOT_LIMIT, SlotTable};
use memory::guest::Frame;
use slot::slots::{Shadow, Slot, SlotNumber, SyncState, Thing};

/// The first of the slots that shadows the thing.
fn first_of(slots: &[Slot], thing: Thing) -> Option<SlotNumber>
    ensures { result ≡ position (λ s. shadows s.shadow thing) slots.now }
{
    slots.iter().position(|slot| slot.shadow.is(thing))
}

impl SlotTable {
    /// The first slot that shadows the thing.
    pub fn find(&self, thing: Thing) -> Option<SlotNumber>
        ensures { result ≡ find_slot thing self.now }
    {
        first_of(&self.slots, thing)
    }

    /// The slots in use.
    fn in_use(&self) -> &[Slot]
        ensures { result.now ≡ take self.now.count self.now.slots }
    {
        &self.slots[..self.count.min(SLOT_LIMIT)]
    }

    /// The first slot in use that is empty.
    pub fn first_empty(&self) -> Option<SlotNumber>
        ensures { result ≡ first_empty self.now }
    {
        self.in_use()
            .iter()
            .position(|slot| slot.shadow.is_nothing())
    }

    /// Is the frame a directory that is shadowed?
    pub fn is_directory(&self, frame: Frame) -> bool
        ensures { result ≡ is_directory frame self.now }
    {
        self.find(Thing::Directory(frame)).is_some()
    }

    /// Is the frame a table that is shadowed and protected?
    pub fn is_protected(&self, frame: Frame) -> bool
        ensures { result ≡ is_protected frame self.now }
    {
        self.slots.iter().any(|slot| slot.shadow.protects(frame))
    }

    /// May no store to the frame go unseen?
    pub fn is_guarded(&self, frame: Frame) -> bool
        ensures { result ≡ is_guarded frame self.now }
    {
        self.is_directory(frame) || self.is_protected(frame)
    }

    /// Does slot i shadow a table that is unsynchronised?
    pub fn is_unsynchronised(&self, i: SlotNumber) -> bool
        ensures { result ≡ is_unsynchronised i self.now }
    {
        matches!(self.shadow(i), Shadow::Table(_, SyncState::Unsynchronised))
    }

    fn may_take(&self, root: Option<Frame>, i: SlotNumber) -> bool
        ensures { result ≡ may_take root self.now i }
    {
        let shadow = self.shadow(i);
        i < self.count && !shadow.is_nothing() && !shadow.is_root(root)
    }

    /// Which slots may be taken for another thing: those in use and filled, but for the root's directory.
    pub fn permitted(&self, root: Option<Frame>) -> [bool; SLOT_LIMIT]
        ensures { result ≡ permitted root self.now }
    {
        std::array::from_fn(|i| self.may_take(root, i))
    }
}
