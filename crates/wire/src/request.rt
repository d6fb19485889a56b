use crate::audit_range::AuditRange;
use crate::token::Token;
use command_object::Commands;
use session_queries::Query;
use user_names::Name;

/// What a user asks for or wants done.
#[derive(Drop)]
pub enum UserRequest {
    /// Asks for what a query asks, as it is at a version no older than `since`.
    Query { query: Query, since: u64 },
    /// Wants commands done, one after another.
    Batch { commands: Commands },
    /// Asks for rows of the audit.
    Audit { range: AuditRange },
}

/// What a message wants: something for a user, or a user who signs in.
#[derive(Drop)]
pub enum RequestBody {
    OfUser(UserRequest),
    /// Signs in.
    Hello { name: Name, token: Token },
}

/// What a message wants, and the user whom it names.
#[derive(Drop)]
pub struct Request {
    /// The user, where the message says it.
    pub user: Option<Name>,
    pub body: RequestBody,
}

/// What a script's message wants, and for whom.
#[derive(Drop)]
pub struct ScriptRequest {
    pub user: Name,
    pub request: UserRequest,
}
