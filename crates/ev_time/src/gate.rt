//! Gates.

/// What is told where a server stands in its work. A test may hold it there.
pub trait Gate {
    /// A registration is between two fetches.
    fn between_sections(&mut self);

    /// Notices are being pushed to a shard.
    fn inside_push(&mut self, shard: u32);
}

/// A gate that holds nobody.
#[derive(Clone, Copy, Debug, PartialEq, Eq, Drop)]
pub struct OpenGate;

impl Gate for OpenGate {
    fn between_sections(&mut self) {}

    fn inside_push(&mut self, _shard: u32) {}
}
