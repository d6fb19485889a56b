ghost use Rattle.std.specs.Prelude.{◌≡◌, vec_capacity};

use session_roles::{Edition, Role};

/// A pair of the role hierarchy (INCITS 359-2012): the senior role inherits what the junior one may do.
#[derive(Clone, Copy, PartialEq, Eq)]
pub struct Inheritance {
    pub senior: Role,
    pub junior: Role,
}

impl Inheritance {
    ghost use Rattle.rbac.specs.Inheritance.{opening_pairs, without_pair};

    /// The pairs of a new session as the rows of its roles tell them, in their order. The last one is of the second
    /// edition alone.
    const OPENING: [Inheritance; 7] = [
        Inheritance {
            senior: Role::Spectator,
            junior: Role::Member,
        },
        Inheritance {
            senior: Role::Contestant,
            junior: Role::Member,
        },
        Inheritance {
            senior: Role::Scorer,
            junior: Role::Member,
        },
        Inheritance {
            senior: Role::Administrator,
            junior: Role::Member,
        },
        Inheritance {
            senior: Role::Director,
            junior: Role::Scorer,
        },
        Inheritance {
            senior: Role::Director,
            junior: Role::Spectator,
        },
        Inheritance {
            senior: Role::Commentator,
            junior: Role::Spectator,
        },
    ];

    /// The pairs of a new session by an edition of the policy, in their order.
    pub fn opening(edition: Edition) -> &'static [Inheritance]
        ensures { result.now ≡ opening_pairs edition }
    {
        match edition {
            Edition::First => &Inheritance::OPENING[..6],
            Edition::Second => &Inheritance::OPENING,
        }
    }

    /// Takes this pair out of a list of pairs.
    pub(crate) fn remove_from(self, pairs: &mut Vec<Inheritance>)
        ensures items { pairs.new.items ≡ without_pair pairs.old.items self }
        ensures capacity { vec_capacity pairs.new ≡ vec_capacity pairs.old }
    {
        pairs.retain(|pair| *pair != self);
    }
}
