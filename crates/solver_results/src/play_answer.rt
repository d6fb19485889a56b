use crate::costs::Costs;

/// What is found of a play.
#[derive(Clone, Copy)]
pub enum PlayAnswer {
    /// What each card costs the side that plays it.
    Costs(Costs),
    /// The card of this number, from 1, is the first that is not legal.
    NotAPlay(usize),
}
