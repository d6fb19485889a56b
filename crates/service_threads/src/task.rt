use std::sync::Wait;
use std::time::Clock;

/// What a thread does, from its start to its end.
pub trait Task {
    /// Does it. It may wait for other threads.
    fn run<R: Wait + Clock>(self, rt: &R);
}
