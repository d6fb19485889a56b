ghost use Rattle.std.specs.Prelude.{◌≡◌, Some};
ghost use Rattle.table_terms.specs.Side.{side_text};

use std::fmt;

/// Two partners at a table (Law 4): North and South, or East and West.
#[derive(Clone, Copy, PartialEq, Eq)]
pub enum Side {
    NorthSouth,
    EastWest,
}

impl Side {
    /// `NS` or `EW`.
    pub fn text(self) -> &'static str
        ensures { result.now ≡ side_text self }
    {
        match self {
            Side::NorthSouth => "NS",
            Side::EastWest => "EW",
        }
    }
}

impl fmt::Display for Side {
    ghost output = { λ side. Some (side_text side) };

    fn fmt<W: fmt::Write>(&self, f: &mut fmt::Formatter<W>) -> fmt::Result {
        f.write_str(self.text())
    }
}
