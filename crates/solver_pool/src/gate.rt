/// What a worker asks before it begins a job, and tells after it.
pub trait Gate {
    /// Returns once the job of this number may be begun.
    fn pass(&self, job: u32);

    /// Hears that the job of this number was solved, or given up.
    fn done(&self, job: u32);
}

/// A gate that lets each job pass.
#[derive(Clone, Copy)]
pub struct OpenGate;

impl Gate for OpenGate {
    fn pass(&self, _job: u32) {}

    fn done(&self, _job: u32) {}
}
