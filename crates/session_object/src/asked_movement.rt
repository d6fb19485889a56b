use movement::Row;
use named_movements::MovementWord;
use table_terms::Items;

/// What the member `movement` of a session object asks for.
#[derive(Drop)]
pub enum AskedMovement {
    /// There is no such member.
    Nothing,
    /// A movement that has a name in the field.
    Word(MovementWord),
    /// A list of rows.
    Rows(Items<Row>),
}
