use notices::Notices;
use session_object::AskedMovement;
use session_opening::NewUser;
use session_roles::Edition;
use table_terms::{Items, Pair};

/// What a session is to open with, whose boards are given beside its object.
#[derive(Drop)]
pub struct AskedSession {
    /// The pair that is absent, if one is.
    pub absent: Option<Pair>,
    /// How many visits a solver's call may make.
    pub budget: u64,
    /// The edition of the policy.
    pub edition: Edition,
    /// The movement that is asked for.
    pub movement: AskedMovement,
    /// What the session tells its members of itself.
    pub notices: Notices,
    /// How many boards a set has.
    pub per_set: u8,
    pub rounds: u8,
    /// By how many tables a set may be played in a round, beside a list of rows.
    pub shared_by: Option<u8>,
    /// In how many of the last rounds the pairs sit the other way round, beside a movement's name.
    pub switched: Option<u8>,
    pub tables: u8,
    pub users: Items<NewUser>,
}
