use crate::work::Work;

/// Work, and the number under which it was given.
#[derive(Clone, Copy)]
pub struct Job {
    pub number: u32,
    pub work: Work,
}
