use crate::bounds::{Bounds, ScoreBounds};
use scoring::Doubling;
use table_terms::{Place, Strain, Vulnerability};

/// What a filter asks of a board, on one fact. An atom on results looks for a shown result of its own.
#[derive(Clone, Copy)]
pub enum Atom {
    /// The board is marked so (Law 2).
    Vulnerability(Vulnerability),
    /// The board is marked so (Law 2).
    Dealer(Place),
    /// Some contract was played at such a level.
    Level(Bounds),
    /// Some contract was played at this strain.
    Strain(Strain),
    /// Some contract was played so.
    Doubled(Doubling),
    /// Some contract that was played was made, or was set.
    Made(bool),
    /// Some result scores such points for North-South, a passed-out board among them.
    Score(ScoreBounds),
    /// The double-dummy table gives this declarer so many tricks in this strain.
    DoubleDummy {
        declarer: Place,
        strain: Strain,
        tricks: Bounds,
    },
}
