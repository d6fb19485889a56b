ghost use Rattle.std.specs.Prelude.{◌≡◌};
ghost use Rattle.disclosure_rules.specs.Phase.{is_running};

/// How far the session has come.
#[derive(Clone, Copy, PartialEq, Eq)]
pub enum Phase {
    /// Boards are being played.
    Running,
    /// Play has ended, and scores may still be corrected (Law 79C).
    Closed,
    /// Nothing changes any more.
    Final,
}

impl Phase {
    /// Whether boards are being played.
    pub(crate) fn is_running(self) -> bool
        ensures { result ≡ is_running self }
    {
        matches!(self, Phase::Running)
    }
}
