ghost use Rattle.std.specs.Prelude.{◌≡◌, ◌≤◌};
ghost use Rattle.scoring.specs.Doubling.{times_doubled};

/// Whether a contract was doubled, and then redoubled (Law 19).
#[derive(Clone, Copy, PartialEq, Eq)]
pub enum Doubling {
    Undoubled,
    Doubled,
    Redoubled,
}

impl Doubling {
    /// How often the contract was doubled, 0 to 2.
    pub fn number(self) -> u8
        ensures number { result ≡ times_doubled self }
        ensures most { result ≤ 2 }
    {
        match self {
            Doubling::Undoubled => 0,
            Doubling::Doubled => 1,
            Doubling::Redoubled => 2,
        }
    }
}
