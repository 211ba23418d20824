//! The oldest slot first.
ghost use Rattle.std.specs.Prelude.{◌≤◌};
ghost use Rattle.policies.specs.Orders.{Small};

use crate::policy::{SLOT_LIMIT, SlotNumber};

/// The order itself: the first `count` of `slots`. The slot that was told of last stands last.
// An array with a count: the memory is fixed and `Old` is `Copy`, which an `ArrayVec` is not.
#[derive(Clone, Copy, Drop)]
pub struct Old {
    slots: [SlotNumber; SLOT_LIMIT],
    count: usize,
    ghost few: { count ≤ 8 },
    ghost small: { Small slots },
}

pub mod aging;
