//! A machine without tokens.
use engine::engine::{Engine, Hart};
use memory::refusal::Refusal;

/// A machine whose calls take and give plain records. The crate above adds the tokens.
// No model of its own, as for a machine: it would ask for the bounds of memory and policy.
#[derive(Drop)]
pub struct PlainMachine<M, P> {
    pub engine: Engine<M, P>,
    /// The processor, while a run is open.
    pub hart: Option<Hart>,
}

/// Why an access did not come through: it was refused, or it was accepted and faulted.
#[derive(Clone, Copy, PartialEq, Eq, Debug)]
pub enum AccessError<X> {
    Refused(Refusal),
    Faulted(X),
}
