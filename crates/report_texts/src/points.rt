//! Percentages and places, as every form writes them.
ghost use Rattle.std.specs.Prelude.{◌≡◌, ◌≤◌, count_by, length, IfOk};
ghost use Rattle.standings.specs.Order.{has_higher_percentage};
ghost use Rattle.text_writer.specs.Hundredths.{hundredths_text};
ghost use Rattle.report_texts.specs.Terms.{east_west_percent, north_south_percent, percent_text, place_text};

use scoring::Standing;
use session_report::{Report, ResultRow};
use standings::RowResult;
use std::alloc::{AllocError, Global};
use text_writer::{TextWriter, bytes_of, hundredths_text};

/// What a result earns, in hundredths of a unit: with a point and two digits.
pub fn earned_text(alloc: Global, hundredths: u32) -> Result<Vec<u8>, AllocError>
    ensures { IfOk result (λ bytes. bytes.items ≡ hundredths_text hundredths) }
{
    hundredths_text(alloc, u128::from(hundredths))
}

/// The same of what a pair earned in all.
pub fn total_text(alloc: Global, hundredths: u64) -> Result<Vec<u8>, AllocError>
    ensures { IfOk result (λ bytes. bytes.items ≡ hundredths_text hundredths) }
{
    hundredths_text(alloc, u128::from(hundredths))
}

/// What was earned of a top in percent, or nothing where nothing could be earned.
pub fn percent_text(alloc: Global, earned: u64, top: u64) -> Result<Vec<u8>, AllocError>
    ensures { IfOk result (λ bytes. bytes.items ≡ percent_text earned top) }
{
    if top == 0 {
        return Ok(Vec::new(alloc));
    }
    let earned = u128::from(earned);
    let top = u128::from(top);
    hundredths_text(alloc, (20000 * earned + top) / (2 * top))
}

/// North-South's percentage of a top.
pub fn north_south_percent(alloc: Global, row: &ResultRow) -> Result<Vec<u8>, AllocError>
    ensures { IfOk result (λ bytes. bytes.items ≡ north_south_percent row.now row.now.row.result) }
{
    match row.row.result {
        RowResult::Played { .. } => percent_text(
            alloc,
            u64::from(row.earning.for_north_south),
            u64::from(row.earning.top),
        ),
        RowResult::Ruled { north_south, .. } => {
            hundredths_text(alloc, 100 * u128::from(north_south))
        }
    }
}

/// East-West's percentage of a top.
pub fn east_west_percent(alloc: Global, row: &ResultRow) -> Result<Vec<u8>, AllocError>
    ensures { IfOk result (λ bytes. bytes.items ≡ east_west_percent row.now row.now.row.result) }
{
    match row.row.result {
        RowResult::Played { .. } => percent_text(
            alloc,
            u64::from(row.earning.for_east_west),
            u64::from(row.earning.top),
        ),
        RowResult::Ruled { east_west, .. } => hundredths_text(alloc, 100 * u128::from(east_west)),
    }
}

/// The place of a pair in a ranking, or nothing where the pair could earn nothing.
pub fn place_text(
    alloc: Global,
    report: &Report,
    standing: &Standing,
) -> Result<Vec<u8>, AllocError>
    ensures { IfOk result (λ bytes. bytes.items ≡ place_text report.now.ranking standing.now) }
{
    if standing.tops == 0 {
        return Ok(Vec::new(alloc));
    }
    let place = ahead(report.ranking.as_slice(), standing) + 1;
    bytes_of(place.to_string(alloc))
}

// How many pairs earned a greater part.
fn ahead(ranking: &[Standing], standing: &Standing) -> usize
    ensures ahead { result ≡ count_by (λ other. has_higher_percentage other standing.now) ranking.now }
    ensures few { result ≤ length ranking.now }
{
    let mut count = 0;
    for other in ranking {
        if has_higher_percentage(other, standing) {
            count += 1;
        }
    }
    count
}

fn has_higher_percentage(a: &Standing, b: &Standing) -> bool
    ensures { result ≡ has_higher_percentage a.now b.now }
{
    0 < a.tops
        && (b.tops == 0
            || u128::from(b.earned) * u128::from(a.tops)
                < u128::from(a.earned) * u128::from(b.tops))
}
