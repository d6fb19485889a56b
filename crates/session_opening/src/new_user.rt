use disclosure_rules::Seat;
use session_roles::Role;
use table_terms::Items;
use user_names::{Digest, MemberNumber, Name, ShownName};

/// A user with whom a session opens.
#[derive(Drop)]
pub struct NewUser {
    pub name: Name,
    pub digest: Digest,
    /// The roles to be assigned, as they were written: in their order, and some perhaps twice.
    pub roles: Items<Role>,
    /// Where the user sits, if the user plays.
    pub seat: Option<Seat>,
    /// The name to show, or none.
    pub shown: ShownName,
    /// The number that the user has as a member of a club or a federation, which is told to nobody.
    pub number: Option<MemberNumber>,
}
