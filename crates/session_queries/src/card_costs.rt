use solver_results::Costs;

/// What each card of a play cost its side.
#[derive(Clone, Copy)]
pub enum CardCosts {
    /// They are still to be counted.
    Pending,
    /// No card was noted.
    NoCards,
    /// The costs in tricks, in the order of the cards.
    Each(Costs),
    /// The card of this number, from 1, is the first that is not legal.
    NotAPlay(usize),
}
