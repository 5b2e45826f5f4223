//! Gates, through which each thread goes before it settles a suspension.

/// A place that threads pass. A test may hold them there.
pub trait Gate {
    /// Passes, for the thread with this number.
    fn pass(&self, who: u32);
}

/// The gate that lets all pass.
pub struct OpenGate;

impl Gate for OpenGate {
    fn pass(&self, _who: u32) {}
}
