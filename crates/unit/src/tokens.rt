//! Tokens: values that only the machine makes, and that are moved from call to call.
use engine::tallies::Tallies;
use memory::guest::Frame;
use walk::fault::Fault;

/// A run that is open, by the root that it was opened with. Closing takes it.
#[derive(Drop)]
pub struct RunningToken {
    pub(crate) root: Frame,
}

/// A run that was closed, by its figures. Only closing makes one, and a report is made from nothing else.
#[derive(Drop)]
pub struct ClosedToken {
    pub(crate) tallies: Tallies,
}

/// A fault that waits to be settled. It cannot be dropped: only delivering it or giving it up takes it.
pub struct PendingFault {
    pub(crate) fault: Fault,
}
