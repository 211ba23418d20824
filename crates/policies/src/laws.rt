//! Theorems about policies, each the contract of a function.
ghost use Rattle.policies.specs.Orders.{NamesPermitted, NamesStanding, OrdersKept};

use crate::policy::EvictionPolicy;

/// Under every policy the order always holds the same slots.
pub fn orders_kept<P: EvictionPolicy>()
    ensures { OrdersKept P.EvictionPolicy.rule }
{}

/// Where a slot of the order is permitted, the slot that is named is permitted and stands in the order.
pub fn permitted_named()
    ensures permitted { NamesPermitted }
    ensures standing { NamesStanding }
{}
