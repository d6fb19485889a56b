//! What a user who is told has to do with the refusal: a function with nothing to do, whose clause is the theorem.

ghost use Rattle.std.specs.Prelude.{◌≡◌, ◌+◌, ℕ};
ghost use Rattle.session_opening.specs.OpeningRefusal.{opening_refusal};
ghost use Rattle.session_opening.specs.declared.config.Config.{Config};
ghost use Rattle.session_check.specs.Users.{with_first, IsRefusedUser};

/// The refusal with the users up to the one that is told is the session's, whoever comes after.
pub fn the_user_has_the_refusal()
    ensures { (config : Config) (place : ℕ) → IsRefusedUser config place →
        opening_refusal (with_first config (place + 1)) ≡ opening_refusal config }
{}
