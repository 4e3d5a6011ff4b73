//! What a worker passes with each ticket.

/// Passed with each ticket, after the draw and before the run. It promises nothing: a test watches
/// by it which tickets are drawn, or holds one.
pub trait Gate: Sync {
    fn pass(&self, ticket: u32);
}

/// A gate that is always open.
#[derive(Clone, Copy, Debug)]
pub struct OpenGate;

impl Gate for OpenGate {
    #[inline(always)]
    fn pass(&self, _ticket: u32) {}
}
