use crate::body::Body;

/// The reply to a query: a body, and the version that it is true of.
#[derive(Drop)]
pub struct Reply {
    pub version: usize,
    pub body: Body,
}
