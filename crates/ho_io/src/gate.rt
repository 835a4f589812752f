// Where workers stop for a moment before each call on a shared object.
use std::sync::Wait;

/// What each worker calls before each of its calls on a shared object, so that a test may have workers
/// meet. It changes nothing that a contract sees.
pub trait Gate: Sync {
    /// Called by the worker of that number before its turn of that number, both counted from 0. It may
    /// wait.
    fn at<R: Wait>(&self, rt: &R, worker: u32, turn: u64);
}

/// A gate that stops nobody.
#[derive(Clone, Copy, Debug, PartialEq, Eq)]
pub struct OpenGate;

impl Gate for OpenGate {
    fn at<R: Wait>(&self, _rt: &R, _worker: u32, _turn: u64) {}
}
