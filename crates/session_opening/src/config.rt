use crate::new_user::NewUser;
use movement::Movement;
use notices::Notices;
use pbn_records::BoardSet;
use session_roles::Edition;
use table_terms::Items;

/// What a session opens with: by which edition of the policy, who plays what where, the boards, the users, and what it tells
/// its members of itself.
pub struct Config {
    /// The edition of the policy.
    pub edition: Edition,
    pub movement: Movement,
    /// The boards of the movement, from 1.
    pub boards: BoardSet,
    pub users: Items<NewUser>,
    /// What the session tells its members of itself.
    pub notices: Notices,
}

// It is written out, so that a caller does not prove again how each part is dropped.
impl Drop for Config {
    fn drop(self) {
        let Config {
            edition: _,
            movement: _,
            boards: _,
            users: _,
            notices: _,
        } = self;
    }
}
