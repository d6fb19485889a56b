//! What holds of clients who take turns: each function here has nothing to do, and its clauses are the theorem.

ghost use Rattle.std.specs.Prelude.{◌≡◌, ℕ, List, Option, Some, None};
ghost use Rattle.many_clients.specs.Hall.{AreTaken, FollowAtOne, HallStep, HasVisited, IsHallStep, steps_at};
ghost use Rattle.many_clients.specs.Talker.{Talker};

use std::io::{Read, Write};
use websocket_server::MessageServer;

/// Whatever clients come, take turns and go, what a place has become came of its own steps alone, in their order: each
/// client is served as if it were alone, by a server that others use between two of its turns.
pub fn each_client_follows<H, S: Read + Write, A: MessageServer<H>>()
    ensures { (steps : List (HallStep (Talker S A.Guest) A)) (places places_after : ℕ → Option (Talker S A.Guest))
        (server server_after : A) →
        AreTaken (IsHallStep S.remaining S.contents A.answers A.binary_text A.memory_text A.nobody)
        steps places server places_after server_after →
        (key : ℕ) → FollowAtOne (steps_at key steps) (places key) (places_after key) }
{}

/// Whoever is in a hall that was empty came there as nobody, and took all turns since on a connection of its own: so nobody
/// is signed in on a new connection, also where the place was another's before.
pub fn each_client_comes_as_nobody<H, S: Read + Write, A: MessageServer<H>>()
    ensures { (steps : List (HallStep (Talker S A.Guest) A)) (places places_after : ℕ → Option (Talker S A.Guest))
        (server server_after : A) → ((key : ℕ) → places key ≡ None) →
        AreTaken (IsHallStep S.remaining S.contents A.answers A.binary_text A.memory_text A.nobody)
        steps places server places_after server_after →
        (key : ℕ) (client : Talker S A.Guest) → places_after key ≡ Some client →
        HasVisited S.remaining S.contents A.answers A.binary_text A.memory_text A.nobody (steps_at key steps) client }
{}
