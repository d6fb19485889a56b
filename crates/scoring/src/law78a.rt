ghost use Rattle.std.specs.Prelude.{◌≡◌, ◌<◌, ◌≤◌, ◌^◌, ◌+◌, ◌*◌, length, IfOk, EachIndex, slice_index, vec_len, count_by, IsSorted, int_lt};
ghost use Rattle.std.specs.Ordering.{int_cmp, int_eq};
ghost use Rattle.scoring.specs.Law78A.{units};

use std::alloc::{AllocError, Global};

/// The scoring units of each score of a board, in the order of the scores (Law 78A): two for each other score that it
/// beats, one for each that it equals. The scores are those of one side. A copy is sorted, and each score looked up in
/// it twice, so m scores cost about m log m steps. It takes memory for that copy and for the units.
pub fn matchpoints(alloc: Global, scores: &[i32]) -> Result<Vec<u32>, AllocError>
    requires { length scores.now < 2 ^ 31 }
    ensures length { IfOk result (λ points. vec_len points ≡ length scores.now) }
    ensures units { IfOk result (λ points.
        EachIndex scores.now (λ i. slice_index points.items i ≡ units scores.now i)) }
{
    let mut sorted = Vec::from_slice(alloc, scores)?;
    sorted.sort_unstable();
    let mut points = Vec::with_capacity(alloc, scores.len())?;
    for score in scores {
        points.push(units_among(&sorted, *score))?;
    }
    Ok(points)
}

fn units_among(sorted: &[i32], score: i32) -> u32
    requires few { length sorted.now < 2 ^ 31 }
    requires sorted { IsSorted int_cmp sorted.now }
    requires held { 1 ≤ count_by (λ other. int_eq other score) sorted.now }
    ensures { result + 1 ≡ 2 * count_by (λ other. int_lt other score) sorted.now
        + count_by (λ other. int_eq other score) sorted.now }
{
    let beaten = sorted.partition_point(|other| *other < score);
    let not_above = sorted.partition_point(|other| *other <= score);
    (beaten + not_above - 1) as u32
}
