ghost use Rattle.std.specs.Prelude.{◌≡◌};
ghost use Rattle.session_commands.specs.Row.{phases_when};

use disclosure_rules::Phase;

/// When a command is taken.
#[derive(Clone, Copy)]
pub enum Taken {
    /// While boards are played.
    InPlay,
    /// Until nothing changes any more (Law 79C).
    UntilFinal,
    /// While scores are corrected.
    InCorrection,
    /// In every phase.
    Always,
}

impl Taken {
    /// The phases in which it is taken.
    pub fn phases(self) -> &'static [Phase]
        ensures { result.now ≡ phases_when self }
    {
        match self {
            Taken::InPlay => &[Phase::Running],
            Taken::UntilFinal => &[Phase::Running, Phase::Closed],
            Taken::InCorrection => &[Phase::Closed],
            Taken::Always => &[Phase::Running, Phase::Closed, Phase::Final],
        }
    }
}
