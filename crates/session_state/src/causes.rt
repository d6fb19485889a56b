//! The first of several causes.
ghost use Rattle.std.specs.Prelude.{◌≡◌};
ghost use Rattle.session_state.specs.Refusal.{first_cause};

/// The first of the causes that is met.
pub fn first_cause<T: Copy>(causes: &[Option<T>]) -> Option<T>
    ensures { result ≡ first_cause causes.now }
{
    for cause in causes {
        if cause.is_some() {
            return *cause;
        }
    }
    None
}
