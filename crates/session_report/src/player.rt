use disclosure_rules::Seat;
use user_names::{MemberNumber, Name, ShownName};

/// A user who sits at a place of a pair.
#[derive(Clone, Copy)]
pub struct Player {
    pub seat: Seat,
    pub name: Name,
    /// The name to show, where there is one.
    pub shown: Option<ShownName>,
    /// The number as a member, where it is known.
    pub number: Option<MemberNumber>,
}
