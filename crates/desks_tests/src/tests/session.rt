//! A session of three tables with seven users, each of whom has the token `abc`. Its text is long, so a function gives
//! it: each place that names a constant is proved with all its bytes.

/// Its session object. On each board each player has a whole suit.
pub(super) fn session() -> &'static str {
    r#"{"budget":0,"pbn":"[Board \"1\"]\n[Deal \"N:AKQJT98765432... .AKQJT98765432.. ..AKQJT98765432. ...AKQJT98765432\"]\n\n[Board \"2\"]\n[Deal \"E:AKQJT98765432... .AKQJT98765432.. ..AKQJT98765432. ...AKQJT98765432\"]\n\n[Board \"3\"]\n[Deal \"S:AKQJT98765432... .AKQJT98765432.. ..AKQJT98765432. ...AKQJT98765432\"]\n\n","per_set":1,"rounds":3,"tables":3,"users":[{"digest":"ba7816bf8f01cfea414140de5dae2223b00361a396177a9cb410ff61f20015ad","name":"a","roles":["Administrator"]},{"digest":"ba7816bf8f01cfea414140de5dae2223b00361a396177a9cb410ff61f20015ad","name":"d","roles":["Director"]},{"digest":"ba7816bf8f01cfea414140de5dae2223b00361a396177a9cb410ff61f20015ad","name":"d2","roles":["Director"]},{"digest":"ba7816bf8f01cfea414140de5dae2223b00361a396177a9cb410ff61f20015ad","name":"k","roles":["Scorer"]},{"digest":"ba7816bf8f01cfea414140de5dae2223b00361a396177a9cb410ff61f20015ad","name":"s","roles":["Spectator"]},{"digest":"ba7816bf8f01cfea414140de5dae2223b00361a396177a9cb410ff61f20015ad","name":"n1","pair":"NS1","place":"N","roles":["Contestant"]},{"digest":"ba7816bf8f01cfea414140de5dae2223b00361a396177a9cb410ff61f20015ad","name":"n2","pair":"NS2","place":"N","roles":["Contestant"]}]}"#
}

/// The hands of board 1.
pub(super) const FIRST_DEAL: &str =
    "N:AKQJT98765432... .AKQJT98765432.. ..AKQJT98765432. ...AKQJT98765432";

/// The hands of board 2.
pub(super) const SECOND_DEAL: &str =
    "E:AKQJT98765432... .AKQJT98765432.. ..AKQJT98765432. ...AKQJT98765432";
