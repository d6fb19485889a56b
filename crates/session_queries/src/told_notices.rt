ghost use Rattle.std.specs.Prelude.{◌≡◌, IfOk};

use notices::Notices;
use std::alloc::{AllocError, Global};
use std::marker::Model;

/// What a session tells of itself, in a place of its own: a reply holds where it is, and moving any other reply costs no
/// more. Clauses see what is told.
#[derive(Drop)]
pub struct ToldNotices(Box<Notices>);

impl Model for ToldNotices {
    ghost use Rattle.notices.specs.declared.notices.Notices.{Notices};

    ghost Value = { Notices };

    ghost view = { λ told. told.0.value };
}

impl ToldNotices {
    pub fn new(alloc: Global, notices: Notices) -> Result<ToldNotices, AllocError>
        ensures { IfOk result (λ told. told ≡ notices) }
    {
        Ok(ToldNotices(Box::new(alloc, notices)?))
    }

    pub fn notices(&self) -> &Notices
        ensures { result.now ≡ self.now }
    {
        &self.0
    }
}
