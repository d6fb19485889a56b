//! What answering comes to: each function here has nothing to do, and its clauses are the theorem.

ghost use Rattle.std.specs.Prelude.{◌≡◌, ◌<◌, ◌++◌, ◌⊎◌, [], ℕ, List, Option, Some, length, map, All};
ghost use Rattle.std.specs.Io.KnownBytes.{Appends};
ghost use Rattle.script_lines.specs.Lines.{lines_of, first_line_of};
ghost use Rattle.session_state.specs.SessionState.{SessionState};
ghost use Rattle.program.specs.FirstLine.{Opens, BeginsNone};
ghost use Rattle.program.specs.Script.{Received, ample, responses_to, messages_among, script_text};
ghost use Rattle.program.specs.declared.fault.Fault.{Fault};
ghost use Rattle.program.specs.Status.{status_of};
ghost use Rattle.program.specs.Told.{IsScriptTold};
ghost use Rattle.program.specs.Writes.{script_limit, IsDone, IsCutShort, IsCutForMemory, IsTooLong, IsUnwritten, EndsInMemory, AnswersScript, WritesPartOfResponses};

/// Where all the memory is there that a script takes, its messages have one text.
pub fn one_text_where_memory_is_ample()
    ensures { (opening : SessionState) (input : List ℕ) (received : List Received) →
        map (λ (r : Received). r.line) received ≡ messages_among (lines_of input) →
        All (λ (r : Received). r.memory ≡ ample) received →
        (responses_to opening received).text ≡ script_text opening input }
{}

/// What a script leads to goes on: the text of its first messages is a first part of the text of them all.
pub fn a_script_goes_on()
    ensures { (opening : SessionState) (received later : List Received) →
        (more : List ℕ)
        × ((responses_to opening (received ++ later)).text ≡ (responses_to opening received).text ++ more) }
{}

/// Every script is told by a history of its session: each line is the text of a reply to a reading, of the receipt for a
/// submission, or of an audit there, in the order of the messages, or says why nothing is told.
pub fn every_script()
    ensures { (opening : SessionState) (received : List Received) → IsScriptTold opening received }
{}

/// A first line opens one session at most.
pub fn a_first_line_opens_one_session()
    ensures { (line : List ℕ) (one other : SessionState) → Opens line one → Opens line other → one ≡ other }
{}

/// What was written before a fault is nothing, or a first part of a text of the whole script.
pub fn a_first_part_before_a_fault()
    ensures read { (input : List ℕ) (left before after : Option (List ℕ)) → IsCutShort input left before after →
        Appends before after [] ⊎ WritesPartOfResponses (lines_of input) before after }
    ensures without_memory { (input : List ℕ) (left before after : Option (List ℕ)) →
        IsCutForMemory input left before after →
        Appends before after [] ⊎ WritesPartOfResponses (lines_of input) before after }
    ensures too_long { (input : List ℕ) (left before after : Option (List ℕ)) → IsTooLong input left before after →
        Appends before after [] ⊎ WritesPartOfResponses (lines_of input) before after }
    ensures written { (input : List ℕ) (left before after : Option (List ℕ)) → IsUnwritten input left before after →
        WritesPartOfResponses (lines_of input) before after }
{}

/// Over bytes in memory a script is answered whole, and just so is what is written; unless memory is refused, which has the
/// status 4, or its first line opens no session, for this fault, or it is too long.
pub fn answered_whole_over_memory()
    ensures whole { (input before after : List ℕ) (left : Option (List ℕ)) →
        IsDone input left (Some before) (Some after) → AnswersScript input before after }
    ensures otherwise { (input : List ℕ) (left before after : Option (List ℕ)) (fault : Fault) →
        EndsInMemory fault input left before after →
        (status_of fault ≡ 4) ⊎ BeginsNone fault (first_line_of (lines_of input)) ⊎ (script_limit < length input) }
{}
