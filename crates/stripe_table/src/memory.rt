use std::alloc::Global;
use stripe_steps::Steps;

/// A memory that threads share by passes. There is a lock for each stripe of its words, and one for the desk.
#[derive(Drop)]
pub struct SharedMem<'m> {
    pub(crate) steps: Steps<'m>,
    pub(crate) alloc: Global,
}
