use movement::Movement;
use small_sets::NumberSet;

/// Some boards of a session, as those that are held.
pub type Boards = NumberSet<{ Movement::MOST_BOARDS }>;
