use user_names::{MemberNumber, Name};

/// A user's number as a member of a club or a federation.
#[derive(Clone, Copy)]
pub struct Membership {
    pub name: Name,
    pub number: MemberNumber,
}
