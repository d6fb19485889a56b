ghost use Rattle.std.specs.Prelude.{◌≡◌, []};
ghost use Rattle.rbac.specs.Inheritance.{opening_pairs, without_pair};
ghost use Rattle.rbac.specs.Hierarchy.{below, HasOneMore, IsClosure, reached_from};

use crate::inheritance::Inheritance;
use session_roles::{Edition, Role, RoleSet};

/// For each role the roles that it reaches down the inheritance pairs, itself among them.
#[derive(Clone, Copy)]
pub struct Hierarchy {
    reached: [RoleSet; Role::COUNT as usize],
}

impl Hierarchy {
    /// The hierarchy of no pairs, where each role reaches itself.
    #[tactic(auto, using(crate::proofs::HierarchyLemmas::closure_none))]
    pub fn new() -> Hierarchy
        ensures { IsClosure [] result.reached }
    {
        let mut reached = [RoleSet::new(); Role::COUNT as usize];
        for (place, role) in Role::ALL.iter().enumerate() {
            reached[place] = RoleSet::new().with(*role);
        }
        Hierarchy { reached }
    }

    /// The hierarchy of a new session by an edition of the policy.
    pub fn opening(edition: Edition) -> Hierarchy
        ensures { IsClosure (opening_pairs edition) result.reached }
    {
        let mut hierarchy = Hierarchy::new();
        for pair in Inheritance::opening(edition) {
            hierarchy = hierarchy.with(*pair);
        }
        hierarchy
    }

    /// The roles that a role reaches.
    pub fn below(&self, senior: Role) -> RoleSet
        ensures { result ≡ below self.now.reached senior }
    {
        self.reached[senior.number() as usize]
    }

    /// The hierarchy with one pair more: who reaches the senior reaches what the junior does.
    pub fn with(&self, pair: Inheritance) -> Hierarchy
        ensures { HasOneMore self.now.reached pair result.reached }
    {
        let more = self.below(pair.junior);
        let mut reached = self.reached;
        for set in reached.iter_mut() {
            if set.has(pair.senior) {
                *set = set.union(more);
            }
        }
        Hierarchy { reached }
    }

    /// The hierarchy of the pairs but for one.
    pub fn of_all_but(pairs: &[Inheritance], left_out: Inheritance) -> Hierarchy
        ensures { IsClosure (without_pair pairs.now left_out) result.reached }
    {
        let mut hierarchy = Hierarchy::new();
        for pair in pairs {
            if *pair != left_out {
                hierarchy = hierarchy.with(*pair);
            }
        }
        hierarchy
    }

    /// The roles that are reached from some role of the set.
    pub fn reached_from(&self, assigned: RoleSet) -> RoleSet
        ensures { result ≡ reached_from self.now.reached assigned }
    {
        let mut roles = RoleSet::new();
        for senior in Role::ALL {
            if assigned.has(senior) {
                roles = roles.union(self.below(senior));
            }
        }
        roles
    }
}
