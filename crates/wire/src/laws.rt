//! What reading comes to: each function here has nothing to do, and its clauses are the theorem.

ghost use Rattle.std.specs.Prelude.{◌≡◌, ◌↔◌, ◌+◌, ◌<◌, ◌≤◌, ℕ, List, Option, None, Ok, Err, length, take};
ghost use Rattle.serde_json.specs.Data.{Data};
ghost use Rattle.json_fields.specs.declared.request_fault.RequestFault.{RequestFault};
ghost use Rattle.json_fields.specs.declared.request_fault.RequestFault.TheVariants.{TooLong, Malformed, UnknownRequest, BadField, OutOfMemory};
ghost use Rattle.session_queries.specs.declared.query.Query.{Query};
ghost use Rattle.wire.specs.declared.audit_range.AuditRange.{AuditRange};
ghost use Rattle.wire.specs.declared.request.Request.{Request};
ghost use Rattle.wire.specs.declared.request.RequestBody.TheVariants as body;
ghost use Rattle.wire.specs.declared.request.UserRequest.TheVariants as wanting;
ghost use Rattle.session_roles.specs.declared.edition.Edition.{Edition};
ghost use Rattle.wire.specs.declared.dialect.Dialect.{Dialect};
ghost use Rattle.wire.specs.declared.source.Source.TheVariants.{Script, Connection};
ghost use Rattle.session_commands.specs.declared.command.Command.{Command};
ghost use Rattle.json_fields.specs.Object.{IsObject};
ghost use Rattle.wire.specs.Grammar.{IsMessage, IsUnknownRequest, IsQuery, IsBatch, IsAudit, IsGreeting, IsNoRequest, Says, SaysNone};
ghost use Rattle.wire.specs.Dialect.{dialect_of};
ghost use Rattle.wire.specs.Request.{most_message_bytes, meaning, IsSaid};

/// Bytes say one request at most, and where they say one no fault applies but want of memory.
pub fn a_message_says_one_thing()
    ensures one { (dialect : Dialect) (bytes : List ℕ) (one other : Request) →
        Says dialect bytes one → Says dialect bytes other → one ≡ other }
    ensures no_fault { (dialect : Dialect) (bytes : List ℕ) (request : Request) (fault : RequestFault) →
        Says dialect bytes request → SaysNone fault dialect bytes → fault ≡ OutOfMemory }
{}

/// A message is too long exactly where it has more bytes than a message may have, whatever they are.
pub fn too_long_first()
    ensures { (dialect : Dialect) (bytes : List ℕ) →
        (meaning dialect bytes ≡ Err TooLong) ↔ (most_message_bytes < length bytes) }
{}

/// So what a message means is told by as many of its first bytes and one more.
pub fn no_more_bytes_matter()
    ensures { (dialect : Dialect) (bytes : List ℕ) →
        meaning dialect (take (most_message_bytes + 1) bytes) ≡ meaning dialect bytes }
{}

/// A message that isn't too long is malformed exactly where it is no object's text.
pub fn malformed_without_an_object()
    ensures { (dialect : Dialect) (bytes : List ℕ) →
        (meaning dialect bytes ≡ Err Malformed)
        ↔ ((length bytes ≤ most_message_bytes) × ((d : Data) → ¬ IsObject bytes d)) }
{}

/// An object is an unknown request exactly where its members make it no query, no batch, no audit and no greeting,
/// where it greets in a script, or where a word in it names nothing, whatever else is wrong with it.
pub fn unknown_before_bad()
    ensures { (dialect : Dialect) (bytes : List ℕ) (d : Data) → IsMessage bytes d →
        (meaning dialect bytes ≡ Err UnknownRequest) ↔ IsUnknownRequest dialect d }
{}

/// An object is a query exactly where its members are those of the query.
pub fn queries_by_their_members()
    ensures { (dialect : Dialect) (bytes : List ℕ) (d : Data) (user : Option (List ℕ)) (query : Query) (since : ℕ) →
        IsMessage bytes d →
        (meaning dialect bytes ≡ Ok (record { user = user; body = body.OfUser (wanting.Query query since) }))
        ↔ IsQuery dialect d user query since }
{}

/// An object is a batch of commands exactly where its members are those of the batch.
pub fn batches_by_their_members()
    ensures { (dialect : Dialect) (bytes : List ℕ) (d : Data) (user : Option (List ℕ)) (commands : List Command) →
        IsMessage bytes d →
        (meaning dialect bytes ≡ Ok (record { user = user; body = body.OfUser (wanting.Batch commands) }))
        ↔ IsBatch dialect d user commands }
{}

/// An object is a request for an audit exactly where its members are those of the audit.
pub fn audits_by_their_members()
    ensures { (dialect : Dialect) (bytes : List ℕ) (d : Data) (user : Option (List ℕ)) (range : AuditRange) →
        IsMessage bytes d →
        (meaning dialect bytes ≡ Ok (record { user = user; body = body.OfUser (wanting.Audit range) }))
        ↔ IsAudit dialect.source d user range }
{}

/// An object is a greeting exactly where it comes on a connection and its members are those of the greeting.
pub fn greetings_by_their_members()
    ensures { (dialect : Dialect) (bytes : List ℕ) (d : Data) (user : Option (List ℕ)) (name token : List ℕ) →
        IsMessage bytes d →
        (meaning dialect bytes ≡ Ok (record { user = user; body = body.Hello name token }))
        ↔ IsGreeting dialect.source d user name token }
{}

/// Any other object has a bad member.
pub fn bad_members_in_all_others()
    ensures { (dialect : Dialect) (bytes : List ℕ) (d : Data) → IsMessage bytes d →
        (meaning dialect bytes ≡ Err BadField) ↔ (¬ IsUnknownRequest dialect d × IsNoRequest dialect d) }
{}

/// What is read from a script says its user and is no greeting; what is read on a connection says no user.
pub fn users_are_said_in_scripts_alone()
    ensures script { (edition : Edition) (bytes : List ℕ) (request : Request) →
        meaning (dialect_of Script edition) bytes ≡ Ok request → IsSaid request }
    ensures connection { (edition : Edition) (bytes : List ℕ) (request : Request) →
        meaning (dialect_of Connection edition) bytes ≡ Ok request → request.user ≡ None }
{}
