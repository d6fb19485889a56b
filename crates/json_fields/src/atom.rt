//! Atoms, each by the name of its one member.

ghost use Rattle.std.specs.Prelude.{◌≡◌, Some, [], option_map, option_and_then};
ghost use Rattle.serde_json.specs.Find.{get, as_bool, as_str};
ghost use Rattle.serde_json.specs.View.{view};
ghost use Rattle.json_fields.specs.Doubling.{doubling_numbered};
ghost use Rattle.json_fields.specs.Field.{small, at_most};
ghost use Rattle.json_fields.specs.Form.{formed};
ghost use Rattle.json_fields.specs.Letter.{place_named, strain_named};
ghost use Rattle.query_filter.specs.declared.atom.Atom.TheVariants as atom;
ghost use Rattle.json_fields.specs.Atom.{marking_named, most, least, bounds, score_said, score_bounds, double_dummy_bounds, atom_called};

use crate::doubling::doubling_numbered;
use crate::field::{has_only, small_number_at, text_at};
use crate::letter::{place_named, strain_named};
use crate::message::{read_declarer, read_strain};
use query_filter::{Atom, Bounds, ScoreBounds};
use scoring::Doubling;
use serde_json::Value;
use table_terms::Vulnerability;

fn marking_named(text: &str) -> Option<Vulnerability>
    ensures { result ≡ marking_named text.now }
{
    match text {
        "none" => Some(Vulnerability::Neither),
        "ns" => Some(Vulnerability::NorthSouth),
        "ew" => Some(Vulnerability::EastWest),
        "both" => Some(Vulnerability::Both),
        _ => None,
    }
}

fn vulnerability(value: &Value) -> Option<Atom>
    ensures { result ≡ option_map (λ x. atom.Vulnerability x) (option_and_then marking_named (as_str (view value.now))) }
{
    let marking = marking_named(value.as_str()?)?;
    Some(Atom::Vulnerability(marking))
}

fn dealer(value: &Value) -> Option<Atom>
    ensures { result ≡ option_map (λ x. atom.Dealer x) (option_and_then place_named (as_str (view value.now))) }
{
    let place = place_named(value.as_str()?)?;
    Some(Atom::Dealer(place))
}

fn level(value: &Value) -> Option<Atom>
    ensures { result ≡ option_map (λ x. atom.Level x) (formed [] bounds (view value.now)) }
{
    let levels = bounds(value)?;
    Some(Atom::Level(levels))
}

fn strain(value: &Value) -> Option<Atom>
    ensures { result ≡ option_map (λ x. atom.Strain x) (option_and_then strain_named (as_str (view value.now))) }
{
    let strain = strain_named(value.as_str()?)?;
    Some(Atom::Strain(strain))
}

fn doubled(value: &Value) -> Option<Atom>
    ensures { result ≡ option_map (λ x. atom.Doubled x) (option_and_then doubling_numbered (small (Some (view value.now)))) }
{
    let doubling = doubling(value)?;
    Some(Atom::Doubled(doubling))
}

fn made(value: &Value) -> Option<Atom>
    ensures { result ≡ option_map (λ x. atom.Made x) (as_bool (view value.now)) }
{
    let made = value.as_bool()?;
    Some(Atom::Made(made))
}

fn scores(value: &Value) -> Option<Atom>
    ensures { result ≡ option_map (λ x. atom.Score x) (score_bounds (view value.now)) }
{
    let points = score_bounds(value)?;
    Some(Atom::Score(points))
}

fn doubling(value: &Value) -> Option<Doubling>
    ensures { result ≡ option_and_then doubling_numbered (small (Some (view value.now))) }
{
    match value.as_u64()? {
        number if number < 256 => doubling_numbered(number as u8),
        _ => None,
    }
}

fn up_to_13(number: u8) -> Option<u8>
    ensures { result ≡ at_most 13 (Some number) }
{
    if number <= 13 { Some(number) } else { None }
}

fn most_of(value: &Value) -> Option<u8>
    ensures { result ≡ most.value (get most.name (view value.now)) }
{
    up_to_13(small_number_at(value, "max")?)
}

fn least_of(value: &Value) -> Option<u8>
    ensures { result ≡ least.value (get least.name (view value.now)) }
{
    up_to_13(small_number_at(value, "min")?)
}

fn bounds(value: &Value) -> Option<Bounds>
    ensures { result ≡ formed [] bounds (view value.now) }
{
    if !has_only(value, &["max", "min"]) {
        return None;
    }
    let max = most_of(value)?;
    let min = least_of(value)?;
    Some(Bounds { min, max })
}

fn score_said(value: &Value, name: &str) -> Option<i32>
    ensures { result ≡ score_said (get name.now (view value.now)) }
{
    match value.get(name)?.as_i64()? {
        points if -10000 <= points && points <= 10000 => Some(points as i32),
        _ => None,
    }
}

fn score_bounds(value: &Value) -> Option<ScoreBounds>
    ensures { result ≡ score_bounds (view value.now) }
{
    if !has_only(value, &["max", "min"]) {
        return None;
    }
    let max = score_said(value, "max")?;
    let min = score_said(value, "min")?;
    Some(ScoreBounds { min, max })
}

fn double_dummy_bounds(value: &Value) -> Option<Atom>
    ensures { result ≡ formed [] double_dummy_bounds (view value.now) }
{
    if !has_only(value, &["by", "max", "min", "strain"]) {
        return None;
    }
    let declarer = read_declarer(value)?;
    let max = most_of(value)?;
    let min = least_of(value)?;
    let strain = read_strain(value)?;
    let tricks = Bounds { min, max };
    Some(Atom::DoubleDummy {
        declarer,
        strain,
        tricks,
    })
}

/// The atom that a member of this name is.
#[tactic(auto, unfolding(crate::specs::Atom::atom_called))]
pub(crate) fn atom_called(name: &str, value: &Value) -> Option<Atom>
    ensures { result ≡ atom_called name.now (view value.now) }
{
    match name {
        "vul" => vulnerability(value),
        "dealer" => dealer(value),
        "level" => level(value),
        "strain" => strain(value),
        "doubled" => doubled(value),
        "made" => made(value),
        "score" => scores(value),
        "dd" => double_dummy_bounds(value),
        _ => None,
    }
}
