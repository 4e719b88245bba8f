//! Places at which a test may hold a step.

/// A place that a step passes.
#[derive(Clone, Copy, Debug, PartialEq, Eq)]
pub enum Place {
    /// Before the sync that makes a commit durable.
    BeforeSync,
    /// After a reply was sent.
    AfterReply,
}

/// What stands at these places: it may hold who passes, and nothing else is known of it.
pub trait StepGate {
    /// The step passes this place.
    fn at(&self, place: Place);
}

/// A gate that does nothing.
#[derive(Clone, Copy, Debug)]
pub struct NoGate;

impl StepGate for NoGate {
    fn at(&self, _place: Place) {}
}
