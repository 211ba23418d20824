//! The machine.
use calls::plain::PlainMachine;
use std::marker::PhantomData;

/// A machine over a guest memory, by a page format and an eviction policy.
// No model of its own: it would read what memory and policy mean, and so ask for their bounds wherever a machine is named.
#[derive(Drop)]
pub struct Machine<M, F, P> {
    pub(crate) plain: PlainMachine<M, P>,
    pub(crate) format: PhantomData<F>,
}
