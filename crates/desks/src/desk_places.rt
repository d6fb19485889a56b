//! The places of desks: each has a part of the count of what all desks enter.

ghost use Rattle.std.specs.Prelude.{◌≡◌, ◌+◌};
ghost use Rattle.desks.specs.Places.{most_desks};

use displays::Server;
use std::sync::ledger::{Blank, Share};

/// How many desks a server has at most: one beside each display, and one for what the solver finds.
pub const MOST_DESKS: u64 = 33;

/// A new count of what desks enter. Who opens a server names the server's count by it.
pub fn new_tally() -> Blank
    ensures { result.parts ≡ most_desks + 1 }
{
    Blank::new(MOST_DESKS + 1)
}

/// The place of one desk, which has entered nothing yet.
#[derive(Drop)]
pub struct DeskPlace<N: Server> {
    pub(crate) share: Share<N>,
    ghost one_part: { share.parts ≡ 1 },
    ghost nothing: { share.amount ≡ 0 },
}

/// The places that are left for desks. Who opens a server has them: no desk has a way to another place.
#[derive(Drop)]
pub struct DeskPlaces<N: Server> {
    share: Share<N>,
    left: u64,
    ghost counted: { share.parts ≡ left + 1 },
}

impl<N: Server> DeskPlaces<N> {
    pub(crate) fn of(share: Share<N>) -> DeskPlaces<N>
        requires { share.parts ≡ most_desks + 1 }
    {
        DeskPlaces {
            share,
            left: MOST_DESKS,
        }
    }

    /// One more place, if one is left. It takes no memory.
    pub fn take(&mut self) -> Option<DeskPlace<N>> {
        if self.left == 0 {
            return None;
        }
        let DeskPlaces { share, left } = self;
        let place = share.split_off(1, 0);
        *left -= 1;
        Some(DeskPlace { share: place })
    }
}
