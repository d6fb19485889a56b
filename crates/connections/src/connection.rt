//! A connection over one who keeps the session.

ghost use Rattle.std.specs.Prelude.{◌≡◌, ◌≤◌, ◌⊎◌, ◌↔◌, None, Some, length, true, IsTrue, IfOk, IfErr, OnOk, OnErr, string_bytes};
ghost use Rattle.session_book.specs.Journal.{IsAccepted};
ghost use Rattle.json_fields.specs.Reading.{Gives};
ghost use Rattle.json_fields.specs.declared.request_fault.RequestFault.TheVariants.{OutOfMemory};
ghost use Rattle.wire.specs.Request.{HasFew, HasFewIn, connection_meaning, is_message_text};
ghost use Rattle.wire.specs.declared.connection_fault.ConnectionFault.TheVariants.{NotKnown, NoEntry};
ghost use Rattle.connections.specs.Linked.{EntersNone, HasGoneOn, signed_in};
ghost use Rattle.connections.specs.Serving.{IsOwnToken, IsServed, is_fault_of};

use json::Scratch;
use json_fields::RequestFault;
use request_answers::{AnswerFault, answer_request};
use session_keeper::{CommandKeeper, Keeper};
use sha2::{Digest, Sha256};
use std::alloc::Global;
use std::marker::Model;
use user_names::{Digest as TokenDigest, Name};
use wire::{ConnectionFault, RequestBody, UserRequest, read_connection_request};

/// A connection: messages are answered for the user who has signed in on it.
#[derive(Drop)]
pub struct Connection<K: Keeper> {
    keeper: K,
    user: Option<Name>,
    // Whose token the last greeting that was refused didn't have.
    mistaken: Option<Name>,
    // What reading a message's JSON takes, so that it is cleared once and not for each.
    scratch: Scratch,
}

impl<K: Keeper> Model for Connection<K> {
    ghost use Rattle.connections.specs.Linked.{Linked, linked_code};

    ghost Value = { Linked };

    ghost coded = { linked_code };

    ghost view = { λ c. record {
      opening = K.opening c.keeper;
      journal = K.journal c.keeper;
      own_entries = K.own_entries c.keeper;
      user = c.user;
    } };
}

impl<K: Keeper> Connection<K> {
    /// A connection on which nobody has signed in.
    pub fn new(alloc: Global, keeper: K) -> Connection<K>
        ensures opening { result.opening ≡ K.opening keeper }
        ensures journal { result.journal ≡ K.journal keeper }
        ensures own { result.own_entries ≡ K.own_entries keeper }
        ensures user { result.user ≡ None }
    {
        Connection {
            keeper,
            user: None,
            mistaken: None,
            scratch: Scratch::new(alloc),
        }
    }

    /// The keeper, for the next connection.
    pub fn into_keeper(self) -> K
        ensures opening { K.opening result ≡ self.opening }
        ensures journal { K.journal result ≡ self.journal }
        ensures own { K.own_entries result ≡ self.own_entries }
    {
        let Connection { keeper, .. } = self;
        keeper
    }

    // What a message wants, by the edition of the policy that the session is of.
    pub(crate) fn read(
        &mut self,
        alloc: Global,
        message: &[u8],
    ) -> Result<RequestBody, RequestFault>
        ensures same { self.new ≡ self.old }
        ensures meaning { Gives result (connection_meaning self.old.opening.public.edition message.now) }
        ensures memory { IfErr result (λ fault. fault ≡ OutOfMemory → is_message_text message.now ≡ true) }
        ensures few { IfOk result HasFewIn }
    {
        read_connection_request(alloc, &mut self.scratch, message, self.keeper.edition())
    }

    /// Who has signed in.
    pub fn user(&self) -> Option<Name>
        ensures { result ≡ self.now.user }
    {
        self.user
    }

    /// The user whom the last greeting named that was refused, if there is such a user: the token was another.
    pub fn mistaken(&self) -> Option<Name> {
        self.mistaken
    }

    /// From here on messages are answered for this user, or where there is none as those of somebody who isn't signed in.
    /// So one keeper serves many connections, on each of which somebody of its own is signed in.
    pub fn set_user(&mut self, user: Option<Name>)
        ensures { self.new ≡ signed_in user self.old }
    {
        self.user = user;
    }

    /// Signs a user in whose account has the digest of this token; else who was signed in still is. That there is no
    /// such account and that the token is another are one refusal. It waits for nobody and takes no memory.
    pub fn hello(&mut self, name: Name, token: &[u8]) -> Result<(), ConnectionFault>
        ensures later { HasGoneOn self.old self.new }
        ensures accepted { IsAccepted self.new.opening self.new.journal }
        ensures others { K.others self.old.journal self.new.journal }
        ensures none { EntersNone self.old self.new }
        ensures known { OnOk result (IsOwnToken self.new name token.now × (self.new.user ≡ Some name)) }
        ensures same { OnErr result (self.new.user ≡ self.old.user) }
        ensures fault { IfErr result (λ fault.
            ((fault ≡ NotKnown) × (¬ IsOwnToken self.new name token.now))
            ⊎ ((fault ≡ NoEntry) × K.no_entry × (self.new.journal ≡ self.old.journal))) }
    {
        // The token is hashed whoever is named, so that the longest part of the work doesn't tell who has an account.
        let hashed = Sha256::digest(token);
        match self.keeper.digest(name) {
            Ok(Some(digest)) if is_digest(&digest, &hashed[..]) => {
                self.user = Some(name);
                Ok(())
            }
            Ok(digest) => {
                self.mistaken = named_if(digest.is_some(), name);
                Err(ConnectionFault::NotKnown)
            }
            Err(_) => Err(ConnectionFault::NoEntry),
        }
    }

    /// The text that answers a request of the user who is signed in. It waits only where the keeper does. Where memory
    /// is refused for the text of a receipt, the commands that were accepted stand; where a batch isn't kept, none does.
    pub fn answer<H>(
        &mut self,
        rt: &H,
        alloc: Global,
        request: &UserRequest,
    ) -> Result<String, ConnectionFault>
    where
        K: CommandKeeper<H>,
        requires { HasFew request.now }
        ensures { IsServed K.others K.no_entry K.not_kept string_bytes self.old self.new request.now
            result self.old.user }
    {
        match self.user {
            Some(user) => or_fault(answer_request(rt, alloc, &mut self.keeper, user, request)),
            None => Err(ConnectionFault::NotSignedIn),
        }
    }
}

// A name that was given, if it is a user's.
fn named_if(is_user: bool, name: Name) -> Option<Name> {
    if is_user { Some(name) } else { None }
}

// Whether an account's digest has these bytes.
fn is_digest(digest: &TokenDigest, bytes: &[u8]) -> bool
    ensures { IsTrue result ↔ (digest.now ≡ record { bytes = bytes.now }) }
{
    digest.bytes[..] == bytes[..]
}

// A text, or why there is none, as a connection says it.
fn or_fault(answer: Result<String, AnswerFault>) -> Result<String, ConnectionFault>
    ensures { result ≡ is_fault_of answer }
{
    match answer {
        Ok(text) => Ok(text),
        Err(AnswerFault::NoEntry) => Err(ConnectionFault::NoEntry),
        Err(AnswerFault::NotKept) => Err(ConnectionFault::NotKept),
        Err(AnswerFault::Unsure) => Err(ConnectionFault::Unsure),
        Err(AnswerFault::OutOfMemory) => Err(ConnectionFault::OutOfMemory),
    }
}
