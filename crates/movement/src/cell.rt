/// A table and a board that it is scheduled to play.
#[derive(Clone, Copy)]
pub struct Cell {
    pub table: u8,
    pub board: u8,
}
