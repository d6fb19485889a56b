//! Who sits where.
ghost use Rattle.std.specs.Prelude.{◌≡◌, IfOk};
ghost use Rattle.session_report.specs.Players.{player_of, players_of, shown_name_among, number_among};

use crate::membership::Membership;
use crate::player::Player;
use rbac::Account;
use session_queries::push_found;
use session_state::{Seated, ShownUser, State};
use std::alloc::{AllocError, Global};
use user_names::{MemberNumber, Name, ShownName};

/// The users who sit somewhere, in the order of the accounts.
pub(crate) fn players_of(
    alloc: Global,
    state: &State,
    memberships: &[Membership],
) -> Result<Vec<Player>, AllocError>
    ensures { IfOk result (λ players. players.items ≡ players_of state.now memberships.now) }
{
    let shown = state.shown_users(alloc)?;
    let mut players = Vec::new(alloc);
    for account in state.accounts() {
        push_found(
            &mut players,
            player_of(state, &shown, memberships, *account),
        )?;
    }
    Ok(players)
}

/// The user of an account, where the user sits somewhere.
fn player_of(
    state: &State,
    shown: &[ShownUser],
    memberships: &[Membership],
    account: Account,
) -> Option<Player>
    ensures { result ≡ player_of state.now shown.now memberships.now account }
{
    match state.seated(account) {
        Some(Seated { name, seat }) => Some(Player {
            seat,
            name,
            shown: shown_name_among(shown, name),
            number: number_among(memberships, name),
        }),
        None => None,
    }
}

/// The name to show of a user, where there is one.
fn shown_name_among(users: &[ShownUser], name: Name) -> Option<ShownName>
    ensures { result ≡ shown_name_among users.now name }
{
    users
        .iter()
        .find(|user| user.name == name)
        .map(|user| user.shown)
}

/// The number of a user as a member, where it is known.
fn number_among(memberships: &[Membership], name: Name) -> Option<MemberNumber>
    ensures { result ≡ number_among memberships.now name }
{
    memberships
        .iter()
        .find(|membership| membership.name == name)
        .map(|membership| membership.number)
}
