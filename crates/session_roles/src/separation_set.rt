ghost use Rattle.std.specs.Prelude.{◌≡◌, ◌<◌, ◌&&◌, Some, find};
ghost use Rattle.session_roles.specs.Role.{has};
ghost use Rattle.session_roles.specs.Separation.{apart, set_number, set_name, separation_sets, has_both};

use crate::role::Role;
use crate::role_set::RoleSet;
use std::fmt;

/// A set of the static separation of duty of INCITS 359-2012: nobody is authorized for both of its roles.
#[derive(Clone, Copy, Debug)]
pub enum SeparationSet {
    S1,
    S2,
    S3,
    S4,
}

impl SeparationSet {
    /// The sets, in their order. The last one has the commentator, whom the first edition of the policy doesn't know.
    pub const ALL: [SeparationSet; 4] = [
        SeparationSet::S1,
        SeparationSet::S2,
        SeparationSet::S3,
        SeparationSet::S4,
    ];

    /// The two roles that are kept apart.
    pub fn roles(self) -> (Role, Role)
        ensures { result ≡ apart self }
    {
        match self {
            SeparationSet::S1 => (Role::Director, Role::Contestant),
            SeparationSet::S2 => (Role::Scorer, Role::Contestant),
            SeparationSet::S3 => (Role::Administrator, Role::Contestant),
            SeparationSet::S4 => (Role::Commentator, Role::Contestant),
        }
    }

    /// `S1`, `S2`, `S3` or `S4`.
    pub fn name(self) -> &'static str
        ensures { result.now ≡ set_name self }
    {
        match self {
            SeparationSet::S1 => "S1",
            SeparationSet::S2 => "S2",
            SeparationSet::S3 => "S3",
            SeparationSet::S4 => "S4",
        }
    }

    /// Whether both roles of the set are among these.
    pub fn is_broken_by(self, roles: RoleSet) -> bool
        ensures { result ≡ has_both roles self }
    {
        let (one, other) = self.roles();
        roles.has(one) && roles.has(other)
    }

    /// The first set both of whose roles are among these.
    pub fn first_broken_by(roles: RoleSet) -> Option<SeparationSet>
        ensures { result ≡ find (has_both roles) separation_sets }
    {
        SeparationSet::ALL
            .iter()
            .copied()
            .find(|set| set.is_broken_by(roles))
    }
}

impl fmt::Display for SeparationSet {
    ghost output = { λ set. Some (set_name set) };

    fn fmt<W: fmt::Write>(&self, f: &mut fmt::Formatter<W>) -> fmt::Result {
        f.write_str(self.name())
    }
}
