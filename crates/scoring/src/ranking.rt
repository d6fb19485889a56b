ghost use Rattle.std.specs.Prelude.{◌≡◌, ◌↔◌};
ghost use Rattle.std.specs.Ordering.{MatchOrdering};
ghost use Rattle.scoring.specs.Ranking.Key.{ByPercentage};
ghost use Rattle.scoring.specs.Ranking.{RanksBefore, IsBefore, IsTied, place_of_side};

use crate::standing::Standing;
use std::cmp::Ordering;
use table_terms::Side;

/// Which of two standings ranks first, `Less` if `a` does: the one that has earned the greater part of its tops,
/// whoever has no tops last; then North-South, the smaller number, the smaller tops, the smaller earned.
pub fn rank_order(a: Standing, b: Standing) -> Ordering
    ensures less { (result ≡ Ordering.Less) ↔ RanksBefore a b }
    ensures greater { (result ≡ Ordering.Greater) ↔ RanksBefore b a }
    ensures equal { (result ≡ Ordering.Equal) ↔ (a ≡ b) }
{
    percentage_order(a, b)
        .then(side_place(a.pair.side).cmp(&side_place(b.pair.side)))
        .then(a.pair.number.cmp(&b.pair.number))
        .then(a.tops.cmp(&b.tops))
        .then(a.earned.cmp(&b.earned))
}

fn percentage_order(a: Standing, b: Standing) -> Ordering
    ensures { MatchOrdering result (IsBefore ByPercentage a b) (IsTied ByPercentage a b) (IsBefore ByPercentage b a) }
{
    match (a.tops, b.tops) {
        (0, 0) => Ordering::Equal,
        (0, _) => Ordering::Greater,
        (_, 0) => Ordering::Less,
        (a_tops, b_tops) => (u128::from(b.earned) * u128::from(a_tops)).cmp(
            &(u128::from(a.earned) * u128::from(b_tops)),
        ),
    }
}

fn side_place(side: Side) -> u8
    ensures { result ≡ place_of_side side }
{
    match side {
        Side::NorthSouth => 0,
        Side::EastWest => 1,
    }
}
