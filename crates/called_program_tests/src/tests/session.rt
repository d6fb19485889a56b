//! A session of three tables with seven users, each of whom has the token `abc`. Its texts are long, so functions give
//! them: each place that names a constant is proved with all its bytes.

use std::alloc::{AllocError, Global};

/// Its session object, with its users and boards.
pub(super) fn session() -> &'static str {
    r#"{"budget":0,"pbn":"[Board \"1\"]\n[Deal \"N:AKQJT98765432... .AKQJT98765432.. ..AKQJT98765432. ...AKQJT98765432\"]\n\n[Board \"2\"]\n[Deal \"E:AKQJT98765432... .AKQJT98765432.. ..AKQJT98765432. ...AKQJT98765432\"]\n\n[Board \"3\"]\n[Deal \"S:AKQJT98765432... .AKQJT98765432.. ..AKQJT98765432. ...AKQJT98765432\"]\n\n","per_set":1,"rounds":3,"tables":3,"users":[{"digest":"ba7816bf8f01cfea414140de5dae2223b00361a396177a9cb410ff61f20015ad","name":"a","roles":["Administrator"]},{"digest":"ba7816bf8f01cfea414140de5dae2223b00361a396177a9cb410ff61f20015ad","name":"d","roles":["Director"]},{"digest":"ba7816bf8f01cfea414140de5dae2223b00361a396177a9cb410ff61f20015ad","name":"d2","roles":["Director"]},{"digest":"ba7816bf8f01cfea414140de5dae2223b00361a396177a9cb410ff61f20015ad","name":"k","roles":["Scorer"]},{"digest":"ba7816bf8f01cfea414140de5dae2223b00361a396177a9cb410ff61f20015ad","name":"s","roles":["Spectator"]},{"digest":"ba7816bf8f01cfea414140de5dae2223b00361a396177a9cb410ff61f20015ad","name":"n1","pair":"NS1","place":"N","roles":["Contestant"]},{"digest":"ba7816bf8f01cfea414140de5dae2223b00361a396177a9cb410ff61f20015ad","name":"n2","pair":"NS2","place":"N","roles":["Contestant"]}]}"#
}

/// Its session object without its boards.
pub(super) fn session_alone() -> &'static str {
    r#"{"budget":0,"per_set":1,"rounds":3,"tables":3,"users":[{"digest":"ba7816bf8f01cfea414140de5dae2223b00361a396177a9cb410ff61f20015ad","name":"a","roles":["Administrator"]},{"digest":"ba7816bf8f01cfea414140de5dae2223b00361a396177a9cb410ff61f20015ad","name":"d","roles":["Director"]},{"digest":"ba7816bf8f01cfea414140de5dae2223b00361a396177a9cb410ff61f20015ad","name":"d2","roles":["Director"]},{"digest":"ba7816bf8f01cfea414140de5dae2223b00361a396177a9cb410ff61f20015ad","name":"k","roles":["Scorer"]},{"digest":"ba7816bf8f01cfea414140de5dae2223b00361a396177a9cb410ff61f20015ad","name":"s","roles":["Spectator"]},{"digest":"ba7816bf8f01cfea414140de5dae2223b00361a396177a9cb410ff61f20015ad","name":"n1","pair":"NS1","place":"N","roles":["Contestant"]},{"digest":"ba7816bf8f01cfea414140de5dae2223b00361a396177a9cb410ff61f20015ad","name":"n2","pair":"NS2","place":"N","roles":["Contestant"]}]}"#
}

/// Its boards, on each of which each player has a whole suit.
pub(super) fn deals() -> &'static str {
    r#"[Board "1"]
[Deal "N:AKQJT98765432... .AKQJT98765432.. ..AKQJT98765432. ...AKQJT98765432"]

[Board "2"]
[Deal "E:AKQJT98765432... .AKQJT98765432.. ..AKQJT98765432. ...AKQJT98765432"]

[Board "3"]
[Deal "S:AKQJT98765432... .AKQJT98765432.. ..AKQJT98765432. ...AKQJT98765432"]
"#
}

/// A script of the session object, with blanks after it where it is to be longer, and of what follows it.
pub(super) fn script_of(alloc: Global, length: usize, rest: &str) -> Result<Vec<u8>, AllocError> {
    let mut script = Vec::from_slice(alloc, session().as_bytes())?;
    let length = length.max(script.len());
    script.resize(length, b' ')?;
    script.extend_from_slice(rest.as_bytes())?;
    Ok(script)
}
