//! The results server's program. `bridge_server script` answers a script on standard input, line by line;
//! `bridge_server serve` serves clients over WebSockets; `bridge_server audit` and `bridge_server copy` read a journal that no
//! server has open; `bridge_server check` says why a session isn't opened, and where; `bridge_server prepare` makes a session of a
//! list of people and of deals.
#![tactic(auto)]

use called_program::run_program;
use std::process::ExitCode;

fn main(rt: HostRuntime) -> ExitCode {
    ExitCode::from(run_program(&rt, &mut rt.stderr()))
}
