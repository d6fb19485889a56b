//! A message on a connection, and the text that answers it.

ghost use Rattle.std.specs.Prelude.{◌≡◌, ◌⊎◌, true, IfOk, OnErr, string_bytes};
ghost use Rattle.std.specs.Cow.{cow_str_bytes};
ghost use Rattle.session_book.specs.Journal.{IsAccepted};
ghost use Rattle.wire.specs.Request.{HasFew, HasFewIn, is_message_text};
ghost use Rattle.connections.specs.Linked.{StaysOn};
ghost use Rattle.connections.specs.Serving.{AddsNothing, OthersAdd, Greets, IsToldOf, Leaves, LeavesRequest, Serves, ServesBody, ForUser, HasNoAnswer, LeavesBody};

use crate::connection::Connection;
use crate::greeting::hello_text;
use json_fields::RequestFault;
use session_keeper::{CommandKeeper, Keeper};
use std::alloc::{AllocError, Global};
use std::borrow::CowStr;
use user_names::Name;
use wire::{ConnectionFault, RequestBody, Token, UserRequest, connection_fault_text, fault_text};

impl<K: Keeper> Connection<K> {
    /// The text that answers a message. A batch or an audit waits only where the keeper does. Where memory is refused,
    /// nobody has signed in by the message; commands that were accepted stand where their receipt finds no memory. A fault
    /// is told by a text that was there before: so a message that is too long, or no UTF-8, is told so without memory.
    #[tactic(auto, unfolding(crate::specs::Serving::Serves, crate::specs::Serving::HasNoAnswer))]
    pub fn serve_message<H>(
        &mut self,
        rt: &H,
        alloc: Global,
        message: &[u8],
    ) -> Result<CowStr<'static>, AllocError>
    where
        K: CommandKeeper<H>,
        ensures served { IfOk result (λ text.
            Serves K.others K.no_entry K.not_kept self.old self.new message.now (cow_str_bytes text)) }
        ensures refused { OnErr result (HasNoAnswer K.others self.old self.new message.now) }
        ensures memory { OnErr result (is_message_text message.now ≡ true) }
    {
        match self.read(alloc, message) {
            Ok(body) => self.serve_read(rt, alloc, &body),
            Err(RequestFault::OutOfMemory) => Err(AllocError),
            Err(fault) => Ok(CowStr::Borrowed(fault_text(fault))),
        }
    }

    // The text that answers what was read.
    fn serve_read<H>(
        &mut self,
        rt: &H,
        alloc: Global,
        body: &RequestBody,
    ) -> Result<CowStr<'static>, AllocError>
    where
        K: CommandKeeper<H>,
        requires { HasFewIn body.now }
        ensures served { IfOk result (λ text.
            ServesBody K.others K.no_entry K.not_kept self.old self.new (cow_str_bytes text) body.now) }
        ensures refused { OnErr result (StaysOn self.old self.new × LeavesBody K.others self.old self.new body.now) }
    {
        match body {
            RequestBody::OfUser(request) => self.serve_request(rt, alloc, request),
            RequestBody::Hello { name, token } => self.greet(alloc, *name, token),
        }
    }

    // The text that answers a request of who is signed in.
    fn serve_request<H>(
        &mut self,
        rt: &H,
        alloc: Global,
        request: &UserRequest,
    ) -> Result<CowStr<'static>, AllocError>
    where
        K: CommandKeeper<H>,
        requires { HasFew request.now }
        ensures served { IfOk result (λ text.
            ForUser K.others K.no_entry K.not_kept self.old self.new request.now (cow_str_bytes text) self.old.user) }
        ensures refused { OnErr result
            (StaysOn self.old self.new × LeavesRequest K.others self.old self.new request.now self.old.user) }
    {
        told(self.answer(rt, alloc, request))
    }

    // Signs a user in, once the text that tells so is there.
    fn greet(
        &mut self,
        alloc: Global,
        name: Name,
        token: &Token,
    ) -> Result<CowStr<'static>, AllocError>
        ensures served { IfOk result (λ text.
            Greets K.others K.no_entry self.old self.new name token.now (cow_str_bytes text)) }
        ensures refused { OnErr result (StaysOn self.old self.new
            × (AddsNothing self.old self.new ⊎ (OthersAdd K.others self.old self.new
            × IsAccepted self.new.opening self.new.journal))) }
    {
        let welcome = hello_text(alloc, name)?;
        match self.hello(name, token.as_bytes()) {
            Ok(()) => Ok(CowStr::Owned(welcome)),
            Err(fault) => Ok(CowStr::Borrowed(connection_fault_text(fault))),
        }
    }
}

// A text, or that of the fault in its place.
fn told(served: Result<String, ConnectionFault>) -> Result<CowStr<'static>, AllocError>
    ensures told { IfOk result (λ text. IsToldOf string_bytes served (cow_str_bytes text)) }
{
    match served {
        Ok(text) => Ok(CowStr::Owned(text)),
        Err(ConnectionFault::OutOfMemory) => Err(AllocError),
        Err(fault) => Ok(CowStr::Borrowed(connection_fault_text(fault))),
    }
}
