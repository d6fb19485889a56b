ghost use Rattle.std.specs.Prelude.{◌≡◌, IfOk};

use disclosure_rules::Public;
use std::alloc::{AllocError, Global};
use std::marker::Model;

/// What every member may see, in a place of its own: a reply holds where it is, and moving any other reply costs no more.
/// Clauses see the facts.
#[derive(Drop)]
pub struct PublicFacts(Box<Public>);

impl Model for PublicFacts {
    ghost use Rattle.disclosure_rules.specs.declared.public.Public.{Public};

    ghost Value = { Public };

    ghost view = { λ facts. facts.0.value };
}

impl PublicFacts {
    pub fn new(alloc: Global, public: Public) -> Result<PublicFacts, AllocError>
        ensures { IfOk result (λ facts. facts ≡ public) }
    {
        Ok(PublicFacts(Box::new(alloc, public)?))
    }

    pub fn public(&self) -> &Public
        ensures { result.now ≡ self.now }
    {
        &self.0
    }
}
