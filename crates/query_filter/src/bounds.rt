ghost use Rattle.std.specs.Prelude.{◌≡◌};
ghost use Rattle.query_filter.specs.Bounds.{is_between, is_score_between};

/// From `min` to `max`, both included; none where `min` is above `max`.
#[derive(Clone, Copy)]
pub struct Bounds {
    pub min: u8,
    pub max: u8,
}

impl Bounds {
    /// Whether the number is one of them.
    pub fn contains(self, number: u8) -> bool
        ensures { result ≡ is_between self number }
    {
        self.min <= number && number <= self.max
    }
}

/// From `min` to `max` points, both included; none where `min` is above `max`.
#[derive(Clone, Copy)]
pub struct ScoreBounds {
    pub min: i32,
    pub max: i32,
}

impl ScoreBounds {
    /// Whether the score is one of them.
    pub fn contains(self, points: i32) -> bool
        ensures { result ≡ is_score_between self points }
    {
        self.min <= points && points <= self.max
    }
}
