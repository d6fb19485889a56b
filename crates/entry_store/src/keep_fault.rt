/// Why entries aren't kept.
#[derive(Clone, Copy)]
pub enum KeepFault {
    /// They aren't, and no later start finds them.
    NotKept,
    /// It isn't known: the next start may find all of them, or none.
    Unsure,
}
