//! A hand is an eviction policy.
ghost use Rattle.std.specs.Prelude.{◌≡◌, ◌<◌, slice_index};
ghost use Rattle.policies.specs.Orders.{first_permitted, from_hand, hand_rule, numbered, turned_past};
ghost use Rattle.policies.specs.Turning.{kept_rearranges, past_rearranges};

use super::Hand;
use crate::policy::{EvictionPolicy, SLOT_LIMIT, SlotNumber};

impl Hand {
    /// Eight slots in the order of their numbers.
    pub fn new() -> Hand
        ensures { from_hand result.hand result.count ≡ numbered 8 }
    {
        Hand {
            hand: 0,
            count: SLOT_LIMIT,
        }
    }

    /// The slot so many places on from the hand.
    fn ahead(&self, passed: usize) -> SlotNumber
        requires { passed < self.now.count }
        ensures slot { result ≡ slice_index (from_hand self.now.hand self.now.count) passed }
        ensures below { result < self.now.count }
    {
        if passed < self.count - self.hand {
            self.hand + passed
        } else {
            passed - (self.count - self.hand)
        }
    }

    /// The first permitted slot from the hand on; 0 where there is none.
    // A form that the project fixes: the search is a loop that yields its slot by `break`.
    fn first_permitted(&self, permitted: &[bool; SLOT_LIMIT]) -> SlotNumber
        ensures answer { result ≡ first_permitted permitted.now (from_hand self.now.hand self.now.count) }
        ensures below { 0 < self.now.count → result < self.now.count }
    {
        let mut places = 0..self.count;
        loop {
            let Some(passed) = places.next() else {
                break 0;
            };
            let slot = self.ahead(passed);
            if permitted[slot] {
                break slot;
            }
        }
    }

    /// Moves the hand past a slot.
    fn pass(&mut self, slot: SlotNumber)
        requires { 0 < self.old.count → slot < self.old.count }
        ensures { from_hand self.new.hand self.new.count ≡ turned_past slot (from_hand self.old.hand self.old.count) }
    {
        self.hand = if slot < self.count { slot + 1 } else { 0 };
    }
}

impl EvictionPolicy for Hand {
    ghost order = { λ p. from_hand p.hand p.count };

    ghost rule = { hand_rule };

    ghost told_rearranges = { kept_rearranges };

    ghost named_rearranges = { past_rearranges };

    fn start(&mut self, count: usize) {
        *self = Hand {
            hand: 0,
            count: count.min(SLOT_LIMIT),
        };
    }

    fn tell(&mut self, _slot: SlotNumber) {}

    fn name(&mut self, permitted: &[bool; SLOT_LIMIT]) -> SlotNumber {
        let slot = self.first_permitted(permitted);
        self.pass(slot);
        slot
    }
}
