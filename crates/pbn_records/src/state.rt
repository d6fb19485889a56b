ghost use Rattle.std.specs.Prelude.{◌≡◌, ◌≢◌, ◌⊎◌, ℕ, List, [], Some, None, OnOk, IfErr};
ghost use Rattle.pbn_records.specs.Tags.{Named, used_of, tag_in};
ghost use Rattle.pbn_records.specs.Kept.{Walk, end_of, after_mark, add_to};
ghost use Rattle.pbn_records.specs.Values.{no_values};
ghost use Rattle.pbn_records.specs.At.{IsStateAfter, EndsInFault, EndsInBadTag, walk_on};
ghost use Rattle.pbn_pieces.specs.declared.piece.NextPiece.TheVariants as found_as;

use crate::deals_error::DealsError;
use crate::game::UsedTags;
use crate::known::add_game;
use crate::known_boards::KnownBoards;
use crate::tag_at::TagAt;
use crate::used::Used;
use pbn_pieces::NextPiece;
use std::alloc::Global;

/// Where a reader is in a text: the game that it is in, the values of the game before, and the boards of the games so
/// far.
#[derive(Drop)]
pub(crate) struct State<'t> {
    pub(crate) boards: u8,
    pub(crate) started: bool,
    pub(crate) tags: UsedTags<'t>,
    pub(crate) before: UsedTags<'t>,
    pub(crate) known: KnownBoards,
}

impl<'t> State<'t> {
    /// At the start of a text.
    pub(crate) fn new(alloc: Global, boards: u8) -> State<'t>
        ensures boards { result.boards ≡ boards }
        ensures at { IsStateAfter result (record { done = []; before = no_values; game = [] }) }
    {
        State {
            boards,
            started: false,
            tags: UsedTags::new(),
            before: UsedTags::new(),
            known: KnownBoards::new(alloc),
        }
    }

    /// Ends the game, if it has a tag.
    pub(crate) fn end_game(&mut self) -> Result<(), DealsError>
        ensures boards { self.new.boards ≡ self.old.boards }
        ensures ended { OnOk result ((walk : Walk) → IsStateAfter self.old walk → IsStateAfter self.new (end_of walk)) }
        ensures fault { IfErr result (λ error. (walk : Walk) → IsStateAfter self.old walk →
            EndsInFault self.old.boards walk (end_of walk) error) }
    {
        if !self.started {
            return Ok(());
        }
        self.tags.end(&mut self.before);
        self.started = false;
        add_game(&mut self.known, &self.before, self.boards)
    }

    /// Goes over a piece that stands at an offset.
    pub(crate) fn take(&mut self, found: NextPiece<'t>, offset: usize) -> Result<(), DealsError>
        ensures boards { self.new.boards ≡ self.old.boards }
        ensures good { OnOk result (found.entry ≢ found_as.BadTag) }
        ensures taken { OnOk result ((walk : Walk) → IsStateAfter self.old walk →
            IsStateAfter self.new (walk_on walk offset found.entry)) }
        ensures fault { IfErr result (λ error. (walk : Walk) → IsStateAfter self.old walk →
            EndsInFault self.old.boards walk (walk_on walk offset found.entry) error
            ⊎ EndsInBadTag self.old.boards walk found.entry offset error) }
    {
        match found {
            NextPiece::Tag { name, value } => self.add(offset, name, value),
            NextPiece::BlankLine => self.end_game(),
            NextPiece::BadTag => match self.end_game() {
                Ok(()) => Err(DealsError::BadTag(offset)),
                Err(error) => Err(error),
            },
            NextPiece::Skipped(_) => Ok(()),
        }
    }

    /// Adds a tag, with which a game ends that has it already.
    pub(crate) fn add(
        &mut self,
        offset: usize,
        name: &[u8],
        value: &'t [u8],
    ) -> Result<(), DealsError>
        ensures boards { self.new.boards ≡ self.old.boards }
        ensures added { OnOk result ((walk : Walk) → IsStateAfter self.old walk →
            IsStateAfter self.new (after_mark walk (Named (record { offset = offset; name = name.now; value = value.now })))) }
        ensures fault { IfErr result (λ error. (walk : Walk) → IsStateAfter self.old walk →
            EndsInFault self.old.boards walk (after_mark walk (Named (record { offset = offset; name = name.now; value = value.now }))) error) }
    {
        let Some(used) = Used::of(name) else {
            self.started = true;
            return Ok(());
        };
        let tag = TagAt::new(offset, value);
        if !self.tags.has(used) {
            self.put(used, tag);
            return Ok(());
        }
        match self.end_game() {
            Ok(()) => {
                self.put(used, tag);
                Ok(())
            }
            Err(error) => Err(error),
        }
    }

    /// Adds a used tag that the game doesn't have.
    fn put(&mut self, used: Used, tag: TagAt<'t>)
        ensures boards { self.new.boards ≡ self.old.boards }
        ensures put { (walk : Walk) (name : List ℕ) → IsStateAfter self.old walk → used_of name ≡ Some used →
            tag_in used walk.game ≡ None →
            IsStateAfter self.new (add_to walk (record { offset = tag.entry.offset; name = name; value = tag.entry.value.now })) }
    {
        self.tags.add(used, tag);
        self.started = true;
    }
}
