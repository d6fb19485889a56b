//! What is read of a session object. The session itself is let go by a call, in the one function that has it.

ghost use Rattle.std.specs.Prelude.{IfErr, option_map};
ghost use Rattle.session_object.specs.Reading.{IsSessionRefused};

use movement::Movement;
use session_object::{SessionFault, read_session};
use std::alloc::Global;

/// The movement of the session that an object says, or why it says none.
pub(super) fn movement_in(
    alloc: Global,
    object: &[u8],
    deals: Option<&[u8]>,
) -> Result<Movement, SessionFault>
    ensures { IfErr result (λ fault. IsSessionRefused fault (option_map (λ bytes. bytes.now) deals.entry) object.now) }
{
    match read_session(alloc, object, deals) {
        Ok(session) => {
            let movement = session.config.movement.copy();
            drop(session);
            Ok(movement)
        }
        Err(fault) => Err(fault),
    }
}
