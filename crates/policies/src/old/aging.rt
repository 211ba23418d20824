//! The oldest slot first is an eviction policy.
ghost use Rattle.std.specs.Prelude.{◌≡◌, ◌+◌, ◌<◌, [], ◌∷◌, ◌++◌, length, min, take, drop, slice_index};
ghost use Rattle.policies.specs.Orders.{Small, first_permitted, moved_last, numbered, old_rule};
ghost use Rattle.policies.specs.Turning.{kept_rearranges, last_rearranges};

use super::Old;
use crate::policy::{EvictionPolicy, SLOT_LIMIT, SlotNumber};

/// The first permitted slot of an order; 0 where there is none.
fn first_permitted(order: &[SlotNumber], permitted: &[bool; SLOT_LIMIT]) -> SlotNumber
    requires { Small order.now }
    ensures { result ≡ first_permitted permitted.now order.now }
{
    order
        .iter()
        .copied()
        .find(|slot| permitted[*slot])
        .unwrap_or(0)
}

/// Takes the slot at a place out of an order and puts it last.
fn put_last(order: &mut [SlotNumber], place: usize)
    requires { place < length order.old }
    ensures { order.new ≡ (take place order.old ++ drop (place + 1) order.old) ++ (slice_index order.old place ∷ []) }
{
    order[place..].rotate_left(1);
}

/// Moves a slot last; an order without it stays.
fn move_last(order: &mut [SlotNumber], slot: SlotNumber)
    ensures moved { order.new ≡ moved_last slot order.old }
    ensures small { Small order.old → Small order.new }
{
    if let Some(place) = order.iter().position(|each| *each == slot) {
        put_last(order, place);
    }
}

impl Old {
    /// Eight slots in the order of their numbers.
    pub fn new() -> Old
        ensures { take result.count result.slots ≡ numbered 8 }
    {
        Old::by_number(SLOT_LIMIT)
    }

    /// So many slots in the order of their numbers, and never more than the limit.
    fn by_number(count: usize) -> Old
        ensures { take result.count result.slots ≡ numbered (min count 8) }
    {
        Old {
            slots: std::array::from_fn(|slot| slot),
            count: count.min(SLOT_LIMIT),
        }
    }

    /// The order.
    fn order(&self) -> &[SlotNumber]
        ensures slots { result.now ≡ take self.now.count self.now.slots }
        ensures small { Small result.now }
    {
        &self.slots[..self.count]
    }
}

impl EvictionPolicy for Old {
    ghost order = { λ p. take p.count p.slots };

    ghost rule = { old_rule };

    ghost told_rearranges = { last_rearranges };

    ghost named_rearranges = { kept_rearranges };

    fn start(&mut self, count: usize) {
        *self = Old::by_number(count);
    }

    fn tell(&mut self, slot: SlotNumber) {
        move_last(&mut self.slots[0..self.count], slot);
    }

    fn name(&mut self, permitted: &[bool; SLOT_LIMIT]) -> SlotNumber {
        first_permitted(self.order(), permitted)
    }
}
