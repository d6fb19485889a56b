ghost use Rattle.std.specs.Prelude.{◌≡◌, ◌≤◌, ◌*◌, length, count_by, int_lt};
ghost use Rattle.std.specs.Ordering.{int_eq};
ghost use Rattle.movement.specs.Movement.{most_tables};
ghost use Rattle.standings.specs.Units.{units_of_score};

/// The units of each result that has this score, among the scores of a board.
pub(crate) fn units_of_score(scores: &[i32], score: i32) -> u32
    requires { length scores.now ≤ most_tables }
    ensures units { result ≡ units_of_score scores.now score }
    ensures small { result ≤ 3 * most_tables }
{
    let others = equal(scores, score).saturating_sub(1);
    (2 * beaten(scores, score) + others) as u32
}

/// How many of the scores this one beats.
fn beaten(scores: &[i32], score: i32) -> usize
    ensures beaten { result ≡ count_by (λ other. int_lt other score) scores.now }
    ensures few { result ≤ length scores.now }
{
    scores.iter().filter(|other| **other < score).count()
}

/// How many of the scores equal this one.
fn equal(scores: &[i32], score: i32) -> usize
    ensures equal { result ≡ count_by (λ other. int_eq other score) scores.now }
    ensures few { result ≤ length scores.now }
{
    scores.iter().filter(|other| **other == score).count()
}
