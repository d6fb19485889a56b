//! Laws of roles and authorization: functions with nothing to do, whose clauses are the laws.
ghost use Rattle.std.specs.Prelude.{◌≡◌, List, ℕ, MatchOption, Contains};
ghost use Rattle.session_roles.specs.declared.role.Role.{Role};
ghost use Rattle.rbac.specs.declared.inheritance.Inheritance.{Inheritance};
ghost use Rattle.session_roles.specs.declared.operation.Operation.{Operation};
ghost use Rattle.session_roles.specs.declared.separation_set.SeparationSet.{SeparationSet};
ghost use Rattle.rbac.specs.Inheritance.{Reaches, pair_of};
ghost use Rattle.session_roles.specs.Separation.{apart};
ghost use Rattle.rbac.specs.Account.{HasAccount, IsAssigned};
ghost use Rattle.rbac.specs.RoleData.{RoleData, assign_user, deassign_user, delete_inheritance};
ghost use Rattle.rbac.specs.Authorization.{IsAuthorized, AreAuthorized, HasPermission, RoleHasPermission, KeepsSeparation, KeepsAssignedApart, IsValid, authorized_roles, has_permission};
ghost use Rattle.std.specs.Bool.{Decides};

/// A senior role's permissions contain its juniors', and who is authorized for a senior role is authorized for its
/// juniors (hierarchical RBAC of INCITS 359-2012).
pub fn seniors_inherit()
    ensures permissions { (pairs : List Inheritance) (senior junior : Role) (operation : Operation) →
        Reaches pairs senior junior →
        RoleHasPermission pairs junior operation → RoleHasPermission pairs senior operation }
    ensures users { (state : RoleData) (name : List ℕ) (senior junior : Role) →
        Reaches state.pairs senior junior → IsAuthorized state name senior → IsAuthorized state name junior }
{}

/// To keep authorized roles apart keeps assigned roles apart, and not the other way round (the static separation of
/// INCITS 359-2012).
pub fn separation_is_of_authorized_roles()
    ensures assigned { (state : RoleData) → KeepsSeparation state → KeepsAssignedApart state }
    ensures not_enough { (state : RoleData) × KeepsAssignedApart state × (¬ KeepsSeparation state) }
{}

/// No user is authorized for both roles of a separation set.
pub fn nobody_is_authorized_for_both()
    ensures { (state : RoleData) → IsValid state → (name : List ℕ) (set : SeparationSet) →
        IsAuthorized state name (apart set).0 → ¬ IsAuthorized state name (apart set).1 }
{}

/// A role that is assigned takes no authorization away.
pub fn assignment_only_adds()
    ensures { (state : RoleData) (name other : List ℕ) (role more : Role) →
        IsAuthorized state name role → IsAuthorized (assign_user state other more) name role }
{}

/// The authorized roles that are computed are those of the definition, of which there is one set.
pub fn authorized_roles_are_exact()
    ensures exact { (state : RoleData) (name : List ℕ) → IsValid state →
        MatchOption (authorized_roles state name) (¬ HasAccount state.accounts name) (AreAuthorized state name) }
    ensures alone { (state : RoleData) (name : List ℕ) (set other : List Role) →
        AreAuthorized state name set → AreAuthorized state name other → set ≡ other }
{}

/// The test of a permission decides whether the user has it.
pub fn permissions_are_exact()
    ensures { (state : RoleData) (name : List ℕ) (operation : Operation) → IsValid state →
        Decides (has_permission state name operation) (HasPermission state name operation) }
{}

/// To take away what is not there would change nothing.
pub fn refused_changes_change_nothing()
    ensures role { (state : RoleData) (name : List ℕ) (role : Role) → IsValid state →
        ¬ IsAssigned state.accounts name role → deassign_user state name role ≡ state }
    ensures pair { (state : RoleData) (senior junior : Role) →
        ¬ Contains state.pairs (pair_of senior junior) → delete_inheritance state senior junior ≡ state }
{}
