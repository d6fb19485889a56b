//! What is read of the parts of a state.
ghost use Rattle.std.specs.Prelude.{◌≡◌, ◌++◌, IfOk, OnOk, length, option_map, slice_get};
ghost use Rattle.session_state.specs.Readers.{digest_among, digest_of, shown_of, shown_among, shown_users, seated_of};

use crate::seated::Seated;
use crate::shown_user::ShownUser;
use crate::state::State;
use disclosure_rules::Phase;
use rbac::Account;
use session_roles::Role;
use std::alloc::{AllocError, Global};
use user_names::{Digest, Name, ShownName};

impl State {
    /// The present round, from 1.
    pub fn round(&self) -> u8
        ensures { result ≡ self.now.public.round }
    {
        self.public.round
    }

    pub fn phase(&self) -> Phase
        ensures { result ≡ self.now.public.phase }
    {
        self.public.phase
    }

    /// The senior and the junior role of the inheritance pair at a place from 0, if there are so many pairs.
    pub fn pair(&self, place: usize) -> Option<(Role, Role)>
        ensures { result ≡ option_map (λ pair. (pair.senior, pair.junior)) (slice_get self.now.roles.pairs place) }
    {
        self.roles.pair(place)
    }

    /// The digest of a user's token, if there is such a user.
    pub fn digest(&self, name: Name) -> Option<Digest>
        ensures { result ≡ digest_of self.now name }
    {
        digest_among(self.roles.accounts(), &self.digests, name)
    }

    /// The users who have a name to show, with it, in the order of the accounts.
    pub fn shown_users(&self, alloc: Global) -> Result<Vec<ShownUser>, AllocError>
        ensures { IfOk result (λ users. users.items ≡ shown_users self.now) }
    {
        shown_among(alloc, self.roles.accounts(), &self.names)
    }

    /// Where the user of an account sits, if the user sits somewhere.
    pub fn seated(&self, account: Account) -> Option<Seated>
        ensures { result ≡ seated_of self.now account }
    {
        let name = account.name;
        match self.seat(name) {
            Some(seat) => Some(Seated { name, seat }),
            None => None,
        }
    }
}

// The digest that stands where the account of this name does, if there is one.
fn digest_among(accounts: &[Account], digests: &[Digest], name: Name) -> Option<Digest>
    requires { length accounts.now ≡ length digests.now }
    ensures { result ≡ digest_among accounts.now digests.now name }
{
    let count = accounts.len();
    let mut found = None;
    // The last one first, and all of them, so that the time doesn't tell where the account stands, nor whether it does.
    for step in 0..count {
        let place = count - 1 - step;
        if accounts[place].name == name {
            found = Some(digests[place]);
        }
    }
    found
}

// The names to show that stand where the accounts do, each with its user's name to sign in by.
fn shown_among(
    alloc: Global,
    accounts: &[Account],
    names: &[ShownName],
) -> Result<Vec<ShownUser>, AllocError>
    requires { length accounts.now ≡ length names.now }
    ensures { IfOk result (λ users. users.items ≡ shown_among accounts.now names.now) }
{
    let mut users = Vec::new(alloc);
    for place in 0..accounts.len() {
        let user = ShownUser {
            name: accounts[place].name,
            shown: names[place],
        };
        push_shown(&mut users, &user)?;
    }
    Ok(users)
}

// Adds a user who has a name to show.
fn push_shown(users: &mut Vec<ShownUser>, user: &ShownUser) -> Result<(), AllocError>
    ensures { OnOk result (users.new.items ≡ users.old.items ++ shown_of user.now) }
{
    if user.shown.is_none() {
        return Ok(());
    }
    users.push(*user)?;
    Ok(())
}
