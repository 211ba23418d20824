//! What an eviction policy answers.
ghost use Rattle.std.specs.Prelude.{◌≡◌, ℕ, min, List};
ghost use Rattle.policies.specs.Orders.{Rearranges, Rule, first_permitted, numbered};

/// The number of a slot.
pub type SlotNumber = usize;

/// No table has more slots.
pub const SLOT_LIMIT: usize = 8;

/// An eviction policy: an order of the slots, and a rule by which telling and naming turn it.
pub trait EvictionPolicy {
    ghost order: { Self → List ℕ };

    ghost rule: { Rule };

    /// Starts over, with so many slots in the order of their numbers, and never more than the limit.
    fn start(&mut self, count: usize)
        ensures { order self.new ≡ numbered (min count 8) };

    /// Tells of a slot that was used.
    fn tell(&mut self, slot: SlotNumber)
        ensures { order self.new ≡ rule.told (order self.old) slot };

    /// Names the slot that gives way: the first of the order that is permitted, or 0 where none is.
    // No Option: the unit asks only where one is permitted, and the definition answers 0 elsewhere.
    fn name(&mut self, permitted: &[bool; SLOT_LIMIT]) -> SlotNumber
        ensures answer { result ≡ first_permitted permitted.now (order self.old) }
        ensures after { order self.new ≡ rule.named (order self.old) result };

    ghost told_rearranges: { Rearranges rule.told };

    ghost named_rearranges: { Rearranges rule.named };
}
