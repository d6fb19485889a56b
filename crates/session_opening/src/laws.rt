//! Laws of the opening: functions with nothing to do, whose clauses are the laws.
ghost use Rattle.std.specs.Prelude.{◌≡◌, ℕ, false, List, None};
ghost use Rattle.rbac.specs.Authorization.{IsAuthorized, KeepsSeparation};
ghost use Rattle.session_roles.specs.declared.role.Role.TheVariants.{Administrator};
ghost use Rattle.session_opening.specs.Opening.{opening_of};
ghost use Rattle.session_opening.specs.OpeningRefusal.{opening_refusal};
ghost use Rattle.session_opening.specs.declared.config.Config.{Config};
ghost use Rattle.session_state.specs.OwnNumbers.{KeepsOwn};
ghost use Rattle.session_state.specs.Seats.{AreSeatsOf};

/// A session that opens has somebody who is authorized for Administrator, and nobody who is authorized for both roles
/// of a separation set (static separation of duty of INCITS 359-2012). No seat has two users, and each is one of the
/// movement's.
pub fn openings_are_sound()
    ensures separation { (config : Config) → opening_refusal config ≡ None → KeepsSeparation (opening_of config).roles }
    ensures administrator { (config : Config) → opening_refusal config ≡ None →
        (name : List ℕ) × IsAuthorized (opening_of config).roles name Administrator }
    ensures seats { (config : Config) → opening_refusal config ≡ None →
        AreSeatsOf (opening_of config).public.movement (opening_of config).seats }
{}

/// A session opens by the edition that it is to have, in what every member may see and in the roles, and under no
/// embargo.
pub fn openings_are_of_their_edition()
    ensures public { (config : Config) → (opening_of config).public.edition ≡ config.edition }
    ensures roles { (config : Config) → (opening_of config).roles.edition ≡ config.edition }
    ensures embargo { (config : Config) → (opening_of config).public.embargo ≡ false }
{}

/// A session opens with no numbers of a solver, so with none of another deal.
pub fn openings_have_no_foreign_numbers()
    ensures { (config : Config) → KeepsOwn (opening_of config) }
{}
