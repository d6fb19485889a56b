//! What can be asked of users, their roles and the role hierarchy (the review functions of INCITS 359-2012). No call
//! changes anything.
ghost use Rattle.std.specs.Prelude.{◌≡◌, length, slice_get, option_and_then};
ghost use Rattle.rbac.specs.Authorization.{authorized_roles};
ghost use Rattle.rbac.specs.Inheritance.{reaches};
ghost use Rattle.rbac.specs.Review.{has_account, is_assigned, has_user_for, first_broken, has_pair};
ghost use Rattle.rbac.specs.RoleData.{assign_user, add_inheritance, after_change};

use crate::change::Change;
use crate::hierarchy::Hierarchy;
use crate::inheritance::Inheritance;
use crate::lookup::{first_broken, has_user_for, has_user_for_without, place_of};
use crate::roles::Roles;
use session_roles::{Role, RoleSet, SeparationSet};

impl Roles {
    /// How many users there are.
    pub fn user_count(&self) -> usize
        ensures { result ≡ length self.now.accounts }
    {
        self.accounts.len()
    }

    /// What `authorized` answers of the user at a place from 0, if there are so many users. No name is looked for.
    pub fn authorized_at(&self, place: usize) -> Option<RoleSet>
        ensures { result ≡ option_and_then (λ account. authorized_roles self.now account.name)
            (slice_get self.now.accounts place) }
    {
        let account = self.accounts.get(place)?;
        Some(self.hierarchy.reached_from(account.assigned))
    }

    /// Whether there is a user of this name.
    pub fn has_account(&self, name: &str) -> bool
        ensures { result ≡ has_account self.now name.now }
    {
        self.accounts
            .iter()
            .any(|account| account.name.as_str() == name)
    }

    /// Whether a role is assigned to a user.
    pub(crate) fn is_assigned(&self, name: &str, role: Role) -> bool
        ensures { result ≡ is_assigned self.now name.now role }
    {
        self.accounts.iter().any(|account| account.name.as_str() == name
            && account.assigned.has(role))
    }

    /// Whether the senior role is the junior one or inherits it, by whatever pairs.
    pub(crate) fn reaches(&self, senior: Role, junior: Role) -> bool
        ensures { result ≡ reaches self.now.pairs senior junior }
    {
        self.hierarchy.below(senior).has(junior)
    }

    /// Whether this very pair is there.
    pub(crate) fn has_pair(&self, senior: Role, junior: Role) -> bool
        ensures { result ≡ has_pair self.now senior junior }
    {
        self.pairs.contains(&Inheritance { senior, junior })
    }

    /// The first separation set that would be broken if a role were assigned to a user.
    pub(crate) fn broken_by_assignment(&self, name: &str, role: Role) -> Option<SeparationSet>
        ensures { result ≡ first_broken (assign_user self.now name.now role) }
    {
        let place = place_of(&self.accounts, name)?;
        let more = self.accounts[place].assigned.with(role);
        SeparationSet::first_broken_by(self.hierarchy.reached_from(more))
    }

    /// The first separation set that would be broken if the senior role inherited the junior one.
    pub(crate) fn broken_by_inheritance(&self, senior: Role, junior: Role) -> Option<SeparationSet>
        ensures { result ≡ first_broken (add_inheritance self.now senior junior) }
    {
        let hierarchy = self.hierarchy.with(Inheritance { senior, junior });
        first_broken(&self.accounts, &hierarchy)
    }

    /// Whether some user would be authorized for a role after a change. A change that would be refused changes nothing.
    pub fn has_user_if(&self, role: Role, change: Change<'_>) -> bool
        ensures { result ≡ has_user_for (after_change self.now change.entry) role }
    {
        match change {
            Change::Deassign(name, taken) => {
                has_user_for_without(&self.accounts, &self.hierarchy, role, name, taken)
            }
            Change::DeleteInheritance(senior, junior) => {
                let pair = Inheritance { senior, junior };
                has_user_for(
                    &self.accounts,
                    &Hierarchy::of_all_but(&self.pairs, pair),
                    role,
                )
            }
        }
    }
}
