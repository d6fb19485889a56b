use crate::source::Source;
use session_roles::Edition;

/// By what a message is read: where it comes from, and which edition of the policy its session has.
#[derive(Clone, Copy)]
pub(crate) struct Dialect {
    pub(crate) source: Source,
    pub(crate) edition: Edition,
}
