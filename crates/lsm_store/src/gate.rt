//! What is told of each merge before it begins.

/// Is told of each merge of a worker before it begins. It promises nothing, and nothing rests on
/// what it does.
pub trait Gate {
    /// The worker, counted from 0, has reserved the job of this ticket, and is about to merge it.
    /// The lock is free.
    fn merging(&self, worker: usize, ticket: u64);
}

/// A gate that does nothing.
#[derive(Clone, Copy, Debug)]
pub struct NoGate;

impl Gate for NoGate {
    fn merging(&self, _worker: usize, _ticket: u64) {}
}
