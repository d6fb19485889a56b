//! What follows from the definitions alone: each function here has nothing to do, and its clauses are the theorem.

ghost use Rattle.std.specs.Prelude.{◌≡◌, ◌≢◌, ◌-◌, ◌+◌, ◌≤◌, ℕ, List, [], Option, Some, None, true, map, codes, slice_get};
ghost use Rattle.cards.specs.Hands.{IsDeal};
ghost use Rattle.pbn_records.specs.declared.board.Board.{Board};
ghost use Rattle.pbn_records.specs.declared.deals_error.DealsError.{DealsError};
ghost use Rattle.pbn_records.specs.declared.deals_error.DealsError.TheVariants.{OutOfMemory};
ghost use Rattle.pbn_records.specs.declared.used.Used.{Used};
ghost use Rattle.pbn_records.specs.declared.used.Used.TheVariants as used_tag;
ghost use Rattle.pbn_records.specs.declared.fault.Fault.{Fault};
ghost use Rattle.pbn_records.specs.declared.fault.Fault.TheVariants.{InheritedForm};
ghost use Rattle.pbn_records.specs.Tags.{Placed, Valued, tag_in};
ghost use Rattle.pbn_records.specs.Values.{Values, read_value, is_inherited_form};
ghost use Rattle.pbn_records.specs.MarkValue.{ReadsDealer, ReadsVulnerable};
ghost use Rattle.pbn_records.specs.Boards.{number_in, HasDeal};
ghost use Rattle.pbn_records.specs.Faults.{FaultAtTag, HasFault};
ghost use Rattle.pbn_records.specs.Reads.{Reads, IsRefused};
ghost use Rattle.pbn_records.specs.GameBefore.{values_at, values_before, IsTagAsWritten, HasHash, IsReadAt};

/// A text gives one set of boards at most.
pub fn a_text_is_read_in_one_way()
    ensures { (text : List ℕ) (boards : ℕ) (one other : List Board) → Reads text boards one →
        Reads text boards other → one ≡ other }
{}

/// A text is refused for one reason at most, and one that can be read for none but want of memory.
pub fn a_text_is_refused_for_one_reason()
    ensures one { (text : List ℕ) (boards : ℕ) (one other : DealsError) → IsRefused one text boards →
        IsRefused other text boards → one ≡ other }
    ensures read { (text : List ℕ) (boards : ℕ) (set : List Board) (error : DealsError) → Reads text boards set →
        IsRefused error text boards → error ≡ OutOfMemory }
{}

/// Each board that is read is a deal: thirteen cards to each player, and no card to two.
pub fn each_board_is_a_deal()
    ensures { (text : List ℕ) (boards number : ℕ) (set : List Board) (board : Board) → Reads text boards set →
        1 ≤ number →
        number ≤ boards → slice_get set (number - 1) ≡ Some board → IsDeal board.deal }
{}

/// `#` takes the value that the tag has in the game before, whatever that game is: it may be ignored, or of unused tags
/// alone. Where the tag has none there, and in the first game, it is missing; so no value is taken over a game that
/// hasn't the tag. Any other value is the tag's own.
pub fn a_hash_takes_the_value_before()
    ensures taken { (games : List (List Placed)) (index offset place : ℕ) (used : Used) (value : List ℕ) →
        HasHash games (index + 1) used offset →
        values_at games index used ≡ Some (record { offset = place; value = value }) →
        values_at games (index + 1) used ≡ Some (record { offset = offset; value = value }) }
    ensures missing { (games : List (List Placed)) (index offset : ℕ) (used : Used) →
        HasHash games (index + 1) used offset → values_at games index used ≡ None →
        values_at games (index + 1) used ≡ None }
    ensures first { (games : List (List Placed)) (offset : ℕ) (used : Used) →
        HasHash games 0 used offset → values_at games 0 used ≡ None }
    ensures not_there { (games : List (List Placed)) (index : ℕ) (used : Used) →
        IsTagAsWritten games index used None → values_at games index used ≡ None }
    ensures other { (games : List (List Placed)) (index : ℕ) (used : Used) (tag : Valued) →
        IsTagAsWritten games index used (Some tag) → tag.value ≢ codes "#" →
        values_at games index used ≡ Some (record { offset = tag.offset; value = read_value tag.value }) }
{}

/// What value a tag has in a game depends on that tag alone, as it is written in the games: so not on which games are
/// ignored, nor on unused tags.
pub fn a_value_depends_on_its_tag_alone()
    ensures { (used : Used) (some others : List (List Placed)) (index : ℕ) →
        map (tag_in used) some ≡ map (tag_in used) others → values_at some index used ≡ values_at others index used }
{}

/// Where a tag of a board's first game is `#`, the board is what the tag says in the game before, ignored or not.
pub fn a_board_is_read_by_the_game_before()
    ensures number { (text : List ℕ) (boards number index offset : ℕ) (board : Board) (games : List (List Placed)) →
        IsReadAt text boards number board games index → HasHash games index used_tag.Board offset →
        number_in boards (values_before games index used_tag.Board) ≡ Some number }
    ensures deal { (text : List ℕ) (boards number index offset : ℕ) (board : Board) (games : List (List Placed)) →
        IsReadAt text boards number board games index → HasHash games index used_tag.Deal offset →
        HasDeal (values_before games index used_tag.Deal) board.deal }
    ensures dealer { (text : List ℕ) (boards number index offset : ℕ) (board : Board) (games : List (List Placed)) →
        IsReadAt text boards number board games index → HasHash games index used_tag.Dealer offset →
        ReadsDealer number (values_before games index used_tag.Dealer) board.dealer }
    ensures vulnerability { (text : List ℕ) (boards number index offset : ℕ) (board : Board) (games : List (List Placed)) →
        IsReadAt text boards number board games index → HasHash games index used_tag.Vulnerable offset →
        ReadsVulnerable number (values_before games index used_tag.Vulnerable) board.vulnerability }
{}

/// A used tag whose value begins with `##` is refused at its `[`, in any game, ignored or not, and has no other fault.
pub fn a_double_hash_is_refused()
    ensures refused { (board : Option ℕ) (first : Option Values) (used : Used) (tag : Valued) →
        is_inherited_form tag.value ≡ true →
        FaultAtTag board first used (Some tag) InheritedForm tag.offset }
    ensures only { (board : Option ℕ) (first : Option Values) (used : Used) (tag : Valued) (fault : Fault) (offset : ℕ) →
        is_inherited_form tag.value ≡ true → FaultAtTag board first used (Some tag) fault offset →
        fault ≡ InheritedForm }
    ensures in_any_game { (boards index : ℕ) (games : List Values) (values : Values) (used : Used) (tag : Valued) →
        slice_get games index ≡ Some values → values used ≡ Some tag → is_inherited_form tag.value ≡ true →
        HasFault boards [] games InheritedForm tag.offset }
{}
