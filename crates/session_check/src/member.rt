/// A member of a session object, or of a user in it.
#[derive(Clone, Copy, Debug, PartialEq, Eq)]
pub enum MemberName {
    /// One that there isn't, or the whole where it is no object.
    Listed,
    Absent,
    Budget,
    Date,
    Edition,
    Movement,
    Pbn,
    PerSet,
    Reasons,
    Rounds,
    SharedBy,
    Switched,
    Tables,
    Title,
    Users,
    Digest,
    Name,
    Number,
    Pair,
    Place,
    Roles,
    Shown,
}

/// Which member it is, and whose.
#[derive(Clone, Copy, Debug, PartialEq, Eq)]
pub struct MemberAt {
    /// The number of the user, from 1, where it is a user's.
    pub user: Option<usize>,
    pub name: MemberName,
}
