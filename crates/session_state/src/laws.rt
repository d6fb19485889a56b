//! Laws of the state: functions with nothing to do, whose clauses are the laws.
ghost use Rattle.std.specs.Prelude.{◌≡◌, ◌≢◌, ◌↔◌, ℕ, true, List, length, Option, Some, None};
ghost use Rattle.std.specs.List.{fold};
ghost use Rattle.movement.specs.declared.cell.Cell.{Cell};
ghost use Rattle.movement.specs.Movement.{IsCell, IsSection};
ghost use Rattle.rbac.specs.Authorization.{IsValid};
ghost use Rattle.disclosure_rules.specs.declared.public.Public.{Public};
ghost use Rattle.disclosure_rules.specs.LiveCells.{is_live};
ghost use Rattle.disclosure_rules.specs.declared.fact.Fact.{Fact};
ghost use Rattle.disclosure_rules.specs.Policy.{first_rule};
ghost use Rattle.notices.specs.declared.notices.Notices.{Notices};
ghost use Rattle.session_state.specs.Apply.{apply, part_of};
ghost use Rattle.session_state.specs.Told.{told_as};
ghost use Rattle.session_commands.specs.Command.{is_solvers, subject_cell};
ghost use Rattle.session_state.specs.OwnNumbers.{TellsOwn, KeepsOwn};
ghost use Rattle.session_state.specs.Parts.{IsSameBut};
ghost use Rattle.session_state.specs.Readers.{shown_name_of};
ghost use Rattle.session_state.specs.Refusal.{hindrance_of, refusal_of, are_all_live, MayGive};
ghost use Rattle.session_state.specs.Seats.{AreSeatsOf};
ghost use Rattle.session_state.specs.SessionState.{SessionState, cell_at, viewer_of, IsPlaced};
ghost use Rattle.session_commands.specs.declared.actor.Actor.{Actor};
ghost use Rattle.session_commands.specs.declared.entry.Entry.{Entry};
ghost use Rattle.session_commands.specs.declared.command.Command.{Command};
ghost use Rattle.session_commands.specs.declared.command.Command.TheVariants.{Rename};
ghost use Rattle.session_commands.specs.declared.refusal.Refusal.TheVariants.{NotPermitted, NoSuchUser};

/// A command is refused as not permitted just where who gives it may not: a user who is authorized for no role that
/// holds the permission for its operation (CheckAccess of INCITS 359-2012), and the solver where it gives what is a
/// user's.
pub fn permissions_guard_commands()
    ensures { (state : SessionState) (spoiler : Option (List ℕ)) (actor : Actor) (command : Command) (entries : ℕ) →
        IsValid state.roles →
        (refusal_of state spoiler actor command entries ≡ Some NotPermitted)
        ↔ (¬ MayGive state.roles actor command) }
{}

/// What the solver tells needs no permission and names no user: whoever gives such a command, it isn't refused as not
/// permitted, nor for a user without an account.
pub fn numbers_need_no_permission()
    ensures permitted { (state : SessionState) (spoiler : Option (List ℕ)) (actor : Actor) (command : Command)
        (entries : ℕ) → is_solvers command ≡ true →
        refusal_of state spoiler actor command entries ≢ Some NotPermitted }
    ensures known { (state : SessionState) (spoiler : Option (List ℕ)) (actor : Actor) (command : Command)
        (entries : ℕ) → is_solvers command ≡ true →
        refusal_of state spoiler actor command entries ≢ Some NoSuchUser }
{}

/// A command changes the part of the state that it is about, and no other; a command on a result changes what is known
/// of its own cell alone. The movement, the marks, the deals and the edition never change.
pub fn each_command_changes_its_own_part()
    ensures part { (state : SessionState) (entry : Entry) →
        IsSameBut (part_of entry.command) state (apply state entry) }
    ensures cell { (state : SessionState) (entry : Entry) (cell : Cell) → IsSection state.public.movement →
        IsPlaced cell → subject_cell entry.command ≢ Some cell → cell_at (apply state entry) cell ≡ cell_at state cell }
{}

/// However many entries are taken in, the edition stays: that of what every member may see, and that of the roles.
pub fn editions_never_change()
    ensures public { (state : SessionState) (entries : List Entry) →
        (fold apply state entries).public.edition ≡ state.public.edition }
    ensures roles { (state : SessionState) (entries : List Entry) →
        (fold apply state entries).roles.edition ≡ state.roles.edition }
{}

/// All results are there just where each cell that the movement schedules has one.
pub fn all_live_is_each_cell()
    ensures { (public : Public) → IsSection public.movement → (are_all_live public ≡ true)
        ↔ ((cell : Cell) → IsCell public.movement cell → is_live public.live cell ≡ true) }
{}

/// A seat has at most one user, and is of a pair of the movement, at a place of the pair's side, wherever that was so
/// before an entry. It is so when a session opens.
pub fn seats_are_of_the_movement()
    ensures { (state : SessionState) (entry : Entry) → AreSeatsOf state.public.movement state.seats →
        AreSeatsOf (apply state entry).public.movement (apply state entry).seats }
{}

/// What the solver tells is of its own: a table that nothing hinders is of its board's hands, and costs are of the
/// hands, the contract and the play of a confirmed result. So are the table that is kept of a board, and the costs that
/// are kept of a cell, after every entry. As their types keep the numbers, those are the exhaustive ones.
pub fn numbers_are_of_their_own_deal()
    ensures told { (state : SessionState) (command : Command) →
        hindrance_of state command ≡ None → TellsOwn state command }
    ensures kept { (state : SessionState) (entry : Entry) → IsSection state.public.movement → KeepsOwn state →
        KeepsOwn (apply state entry) }
{}

/// Names to show, and what a session tells of itself, change nothing else: with others a command is refused for the same
/// cause, or for none, and what an entry makes of the state is the same but for these; what the policy looks at is the
/// same too.
pub fn names_change_nothing()
    ensures refusal { (state : SessionState) (names : List (List ℕ)) (notices : Notices) (spoiler : Option (List ℕ))
        (actor : Actor) (command : Command) (entries : ℕ) →
        refusal_of (told_as state names notices) spoiler actor command entries
        ≡ refusal_of state spoiler actor command entries }
    ensures entry { (state : SessionState) (names later : List (List ℕ)) (notices after : Notices) (entry : Entry) →
        told_as (apply (told_as state names notices) entry) later after ≡ told_as (apply state entry) later after }
    ensures policy { (state : SessionState) (names : List (List ℕ)) (notices : Notices) (user : List ℕ) (fact : Fact) →
        first_rule (told_as state names notices).public (viewer_of (told_as state names notices) user) fact
        ≡ first_rule state.public (viewer_of state user) fact }
{}

/// A user who is renamed has the new name to show, and everybody else the one that there was.
pub fn a_rename_is_of_its_own_user()
    ensures own { (state : SessionState) (actor : Actor) (name shown : List ℕ) →
        length state.names ≡ length state.roles.accounts → hindrance_of state (Rename name shown) ≡ None →
        shown_name_of (apply state (record { actor = actor; command = Rename name shown })) name ≡ shown }
    ensures others { (state : SessionState) (actor : Actor) (name other shown : List ℕ) →
        length state.names ≡ length state.roles.accounts → other ≢ name →
        shown_name_of (apply state (record { actor = actor; command = Rename name shown })) other
        ≡ shown_name_of state other }
{}
