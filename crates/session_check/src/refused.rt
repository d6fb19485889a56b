use opened_session::OpeningFault;
use session_object::SessionFault;
use user_names::Name;

/// A user of a session object.
#[derive(Clone, Copy)]
pub struct NamedUser {
    /// The number among the users, from 1.
    pub number: usize,
    pub name: Name,
}

/// Why a session isn't opened, and where.
#[derive(Clone, Copy)]
pub struct Refused {
    /// The refusal, as it is told where the session is to be opened.
    pub fault: OpeningFault,
    /// The line of the boards' text, from 1, where the refusal is of a place in it.
    pub line: Option<usize>,
    /// The user, where the refusal is of one.
    pub user: Option<NamedUser>,
    /// The user before, who has the name or the seat already.
    pub other: Option<NamedUser>,
}
