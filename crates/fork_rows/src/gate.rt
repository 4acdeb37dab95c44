//! What is told of each row before it is filled.

/// Is told the index of each row before the job begins on it, in the thread that fills it. A gate changes nothing of what is filled:
/// tests hold one row by it until another is begun.
pub trait Gate {
    /// The row with this index is next in this thread.
    fn enter(&self, index: usize);
}

/// The gate that holds nothing.
#[derive(Clone, Copy, Debug)]
pub struct OpenGate;

impl Gate for OpenGate {
    fn enter(&self, _index: usize) {}
}
