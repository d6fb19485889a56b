use cards::{Deal, Play};
use movement::Cell;
use scoring::Contract;
use session_commands::{Actor, Entry};

/// What the texts of an entry tell. No numbers of the solver's are taken from a text: it tells what they are of, and
/// they are found again.
#[derive(Clone, Copy)]
pub enum KeptEntry {
    /// A user's entry.
    Given(Entry),
    /// That the table of this board was told, with this deal.
    Solved {
        actor: Actor,
        board: u8,
        deal: Deal,
    },
    /// That it was told what this play cost.
    Analysed {
        actor: Actor,
        cell: Cell,
        deal: Deal,
        contract: Contract,
        play: Play,
    },
}
