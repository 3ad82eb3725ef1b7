//! What a thread passes before each leg.

/// A thread enters it with the number of a revision, before the first instruction of each leg.
pub trait Gate {
    fn enter(&self, revision: u32);
}

/// It lets all threads pass at once.
#[derive(Drop)]
pub struct OpenGate;

impl Gate for OpenGate {
    fn enter(&self, _revision: u32) {}
}
