//! A hand that goes round the slots.
ghost use Rattle.std.specs.Prelude.{◌≤◌};

use crate::policy::SlotNumber;

// No model of its own, here and in `Old`: one of a `Copy` type must give the fields back, and two hands may have one order.
/// The slots below `count`, in order from the hand upward and round the end. A hand at `count` goes on from slot 0.
#[derive(Clone, Copy, Drop)]
pub struct Hand {
    hand: SlotNumber,
    count: usize,
    ghost within: { hand ≤ count },
    ghost few: { count ≤ 8 },
}

pub mod going;
