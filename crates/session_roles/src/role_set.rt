ghost use Rattle.std.specs.Prelude.{◌≡◌, [], ◌↔◌, IsTrue};
ghost use Rattle.session_roles.specs.Role.{has, with_role, without_role, union_of, IsListed};

use crate::role::Role;
use small_sets::NumberSet;
use std::marker::Model;

/// A set of roles, which clauses see as the list of its roles in their order.
#[derive(Clone, Copy)]
pub struct RoleSet {
    places: NumberSet<{ Role::COUNT }>,
}

impl Model for RoleSet {
    ghost use Rattle.std.specs.Prelude.{List};
    ghost use Rattle.small_sets.specs.Numbers.{IsSetUpTo};
    ghost use Rattle.session_roles.specs.declared.role.Role.{Role};
    ghost use Rattle.session_roles.specs.declared.role.TheConstants.Role.{COUNT};
    ghost use Rattle.session_roles.specs.RoleNumbers.{roles_of_numbers, numbers_of_roles, numbers_of_roles_of_numbers};

    ghost Value = { List Role };

    ghost view = { λ roles. roles_of_numbers roles.places };

    ghost invariant = { λ roles. IsSetUpTo COUNT roles.places };

    ghost inverse = { λ roles. record { places = numbers_of_roles roles } };

    ghost inverse_ok = { λ roles is_set i. record { places = numbers_of_roles_of_numbers roles.places is_set i } };
}

impl RoleSet {
    /// No role.
    #[tactic(auto, using(crate::proofs::RoleNumbersLemmas::none_of_none))]
    pub fn new() -> RoleSet
        ensures { result ≡ [] }
    {
        RoleSet {
            places: NumberSet::new(),
        }
    }

    /// Whether the role is in the set.
    #[tactic(auto, using(crate::proofs::RoleNumbersLemmas::has_roles_of_numbers, crate::proofs::RoleNumbersLemmas::listed_roles_of_numbers))]
    pub fn has(self, role: Role) -> bool
        ensures has { result ≡ has self role }
        ensures listed { IsListed self }
    {
        self.places.contains(role.number() + 1)
    }

    /// The set with this role in it.
    pub fn with(self, role: Role) -> RoleSet
        ensures { result ≡ with_role self role }
    {
        let mut places = self.places;
        places.insert(role.number() + 1);
        RoleSet { places }
    }

    /// The set without this role.
    pub fn without(self, role: Role) -> RoleSet
        ensures { result ≡ without_role self role }
    {
        let mut places = self.places;
        places.remove(role.number() + 1);
        RoleSet { places }
    }

    /// The roles of both sets.
    pub fn union(self, other: RoleSet) -> RoleSet
        ensures { result ≡ union_of self other }
    {
        RoleSet {
            places: self.places.union(other.places),
        }
    }
}

impl PartialEq for RoleSet {
    ghost use Rattle.std.specs.Cmp.{on_equiv, nat_eq_equiv, partial_equiv_from_equiv};
    ghost use Rattle.std.specs.Cmp.Lexicographic.{pointwise, lists_equiv};
    ghost use Rattle.session_roles.specs.Role.{same_role, role_number};

    ghost eq = { pointwise same_role };

    ghost laws = { partial_equiv_from_equiv (lists_equiv (on_equiv role_number nat_eq_equiv)) };

    #[tactic(auto, using(crate::proofs::RoleNumbersLemmas::same_places))]
    fn eq(&self, other: &RoleSet) -> bool {
        self.places == other.places
    }
}

impl Eq for RoleSet {
    ghost use Rattle.std.specs.Cmp.{on_equiv, nat_eq_equiv};
    ghost use Rattle.std.specs.Cmp.Lexicographic.{lists_equiv};
    ghost use Rattle.session_roles.specs.Role.{role_number};

    ghost laws = { lists_equiv (on_equiv role_number nat_eq_equiv) };
}
