ghost use Rattle.std.specs.Prelude.{◌≡◌, ◌≢◌, None, Some};
ghost use Rattle.std.specs.Option.{is_some};
ghost use Rattle.pbn_records.specs.declared.used.Used.{Used};
ghost use Rattle.pbn_records.specs.Shown.{as_written, tag_of, inheriting};

use crate::tag_at::TagAt;
use crate::used::Used;

/// The used tags of a game, as far as it has them.
#[derive(Clone, Copy)]
pub(crate) struct UsedTags<'t> {
    pub(crate) board: Option<TagAt<'t>>,
    pub(crate) dealer: Option<TagAt<'t>>,
    pub(crate) vulnerable: Option<TagAt<'t>>,
    pub(crate) deal: Option<TagAt<'t>>,
}

impl<'t> UsedTags<'t> {
    pub(crate) fn new() -> UsedTags<'t>
        ensures { (used : Used) → tag_of result used ≡ None }
    {
        UsedTags {
            board: None,
            dealer: None,
            vulnerable: None,
            deal: None,
        }
    }

    /// Whether the tag is there.
    pub(crate) fn has(&self, used: Used) -> bool
        ensures { result ≡ is_some (tag_of self.now used) }
    {
        match used {
            Used::Board => self.board.is_some(),
            Used::Dealer => self.dealer.is_some(),
            Used::Vulnerable => self.vulnerable.is_some(),
            Used::Deal => self.deal.is_some(),
        }
    }

    /// Adds a tag.
    pub(crate) fn add(&mut self, used: Used, tag: TagAt<'t>)
        ensures added { tag_of self.new used ≡ Some tag.entry }
        ensures others { (other : Used) → other ≢ used → tag_of self.new other ≡ tag_of self.old other }
    {
        match used {
            Used::Board => self.board = Some(tag),
            Used::Dealer => self.dealer = Some(tag),
            Used::Vulnerable => self.vulnerable = Some(tag),
            Used::Deal => self.deal = Some(tag),
        }
    }

    /// Ends the game: its tags become those of the game before, whose value each takes where its own is `#`.
    pub(crate) fn end(&mut self, before: &mut UsedTags<'t>)
        ensures ended { (used : Used) →
            as_written (tag_of before.new used)
            ≡ inheriting (as_written (tag_of before.old used)) (as_written (tag_of self.old used)) }
        ensures none { (used : Used) → tag_of self.new used ≡ None }
    {
        inherit(&mut self.board, &before.board);
        inherit(&mut self.dealer, &before.dealer);
        inherit(&mut self.vulnerable, &before.vulnerable);
        inherit(&mut self.deal, &before.deal);
        *before = *self;
        *self = UsedTags::new();
    }
}

/// Takes the value of the game before where a tag's own is `#`.
fn inherit<'t>(tag: &mut Option<TagAt<'t>>, before: &Option<TagAt<'t>>)
    ensures { as_written tag.new ≡ inheriting (as_written before.now) (as_written tag.old) }
{
    let Some(own) = tag else {
        return;
    };
    if *own.value != *b"#".as_slice() {
        return;
    }
    let offset = own.offset;
    *tag = match before {
        Some(before) => Some(TagAt {
            offset,
            value: before.value,
            number: before.number,
            four: before.four,
        }),
        None => None,
    };
}
