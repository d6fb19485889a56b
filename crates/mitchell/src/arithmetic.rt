//! The arithmetic of the Mitchell movement. Tables, rounds, sets and East-West pairs are counted from 0 here.

ghost use Rattle.std.specs.Prelude.{◌≡◌, ℕ, ◌+◌, ◌<◌, ◌≤◌, if◌then◌else◌};
ghost use Rattle.mitchell.specs.Mitchell as spec;

/// The most rounds that can be played without a pair meeting a set or an opponent again.
pub fn most_rounds(tables: u8) -> u8
    requires { 1 ≤ tables }
    ensures { result ≡ spec.most_rounds tables }
{
    if tables % 2 == 0 { tables - 1 } else { tables }
}

/// Whether the East-West pairs have skipped a table by a round.
fn has_skipped(tables: u8, round: u8) -> bool
    ensures { result ≡ spec.has_skipped tables round }
{
    tables % 2 == 0 && round >= tables / 2
}

/// How many tables the East-West pairs have moved up by a round.
fn moved(tables: u8, round: u8) -> u8
    requires { round < spec.most_tables }
    ensures { result ≡ round + (if spec.has_skipped tables round then 1 else 0) }
{
    if has_skipped(tables, round) {
        round + 1
    } else {
        round
    }
}

/// The set on a table in a round.
pub fn set_on(tables: u8, table: u8, round: u8) -> u8
    requires few { tables ≤ spec.most_tables }
    requires table { table < tables }
    requires round { round < tables }
    ensures { result ≡ spec.set_on tables table round }
{
    (table + round) % tables
}

/// The East-West pair at a table in a round.
pub fn east_west_at(tables: u8, table: u8, round: u8) -> u8
    requires few { tables ≤ spec.most_tables }
    requires table { table < tables }
    requires round { round < tables }
    ensures pair { result < tables }
    ensures at { spec.east_west_table tables result round ≡ table }
{
    (table + tables - moved(tables, round)) % tables
}
