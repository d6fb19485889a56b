ghost use Rattle.std.specs.Prelude.{◌≡◌};
ghost use Rattle.pbn_records.specs.Tags.{used_of};

/// A tag that is used: all others are skipped.
#[derive(Clone, Copy)]
pub(crate) enum Used {
    Board,
    Dealer,
    Vulnerable,
    Deal,
}

impl Used {
    /// The used tag of a name, spelled so.
    pub(crate) fn of(name: &[u8]) -> Option<Used>
        ensures { result ≡ used_of name.now }
    {
        if *name == *b"Board".as_slice() {
            Some(Used::Board)
        } else if *name == *b"Dealer".as_slice() {
            Some(Used::Dealer)
        } else if *name == *b"Vulnerable".as_slice() {
            Some(Used::Vulnerable)
        } else if *name == *b"Deal".as_slice() {
            Some(Used::Deal)
        } else {
            None
        }
    }
}
