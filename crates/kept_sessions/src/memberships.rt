//! The numbers of members that a session object has.

ghost use Rattle.std.specs.Prelude.{◌≡◌, ◌⊎◌, IfOk, IfErr};
ghost use Rattle.std.specs.List.{filter_map};
ghost use Rattle.kept_sessions.specs.Reported.{AreNumbersOf, membership_of};
ghost use Rattle.kept_sessions.specs.Sources.{WhyNoSession};
ghost use Rattle.kept_sessions.specs.declared.source_fault.KeptSessionFault.TheVariants.{OutOfMemory};

use crate::source_fault::KeptSessionFault;
use opened_session::OpeningFault;
use session_object::{SessionFault, read_session};
use session_opening::NewUser;
use session_queries::push_found;
use session_report::Membership;
use std::alloc::{AllocError, Global};

/// The numbers of members in a session object, which is read once more: a session that was opened keeps none.
pub(crate) fn memberships_of_texts(
    alloc: Global,
    object: &[u8],
    boards: &[u8],
) -> Result<Vec<Membership>, KeptSessionFault>
    ensures numbers { IfOk result (λ memberships. AreNumbersOf object.now boards.now memberships.items) }
    ensures why { IfErr result (λ fault. (fault ≡ OutOfMemory) ⊎ WhyNoSession object.now boards.now fault) }
{
    match read_session(alloc, object, Some(boards)) {
        Ok(said) => match memberships_of(alloc, said.config.users.as_slice()) {
            Ok(memberships) => Ok(memberships),
            Err(_) => Err(KeptSessionFault::OutOfMemory),
        },
        Err(SessionFault::OutOfMemory) => Err(KeptSessionFault::OutOfMemory),
        Err(fault) => Err(KeptSessionFault::Unopened(OpeningFault::Session(fault))),
    }
}

// The numbers of users who have one.
fn memberships_of(alloc: Global, users: &[NewUser]) -> Result<Vec<Membership>, AllocError>
    ensures { IfOk result (λ memberships. memberships.items ≡ filter_map membership_of users.now) }
{
    let mut memberships = Vec::new(alloc);
    for user in users {
        push_found(&mut memberships, membership_of(user))?;
    }
    Ok(memberships)
}

fn membership_of(user: &NewUser) -> Option<Membership>
    ensures { result ≡ membership_of user.now }
{
    let name = user.name;
    user.number.map(|number| Membership { name, number })
}
