use crate::doubling::Doubling;
use crate::level::Level;
use table_terms::{Place, Strain};

/// The undertaking of declarer's side to win, at a strain, so many odd tricks (Law 22).
#[derive(Clone, Copy, PartialEq, Eq)]
pub struct Contract {
    pub level: Level,
    pub strain: Strain,
    pub declarer: Place,
    pub doubling: Doubling,
}
