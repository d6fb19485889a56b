ghost use Rattle.std.specs.Prelude.{◌≡◌, ◌≤◌, ◌<◌, ℕ, true, [], length, get_or, IfOk, vec_len};
ghost use Rattle.movement.specs.Movement.{most_tables};
ghost use Rattle.scoring.specs.declared.standing.Standing.{Standing};
ghost use Rattle.class_views.specs.Kept.{AreAlike, AreWithinBoard, AreStandings, IsTotalWith, total_with, where_seen};
ghost use Rattle.class_views.specs.Places.{pair_places};

use crate::user_class::{PAIRS, pair_at};
use scoring::Standing;
use session_commands::room::filled;
use standings::{Earning, standing_of};
use std::alloc::{AllocError, Global};
use std::marker::Model;

/// How each pair stands that a section can have; clauses see the standings, each at its pair's place.
#[derive(Drop)]
pub(crate) struct PairTotals {
    standings: Vec<Standing>,
}

impl Model for PairTotals {
    ghost use Rattle.std.specs.Prelude.{◌≡◌, List, length};
    ghost use Rattle.scoring.specs.declared.standing.Standing.{Standing};
    ghost use Rattle.class_views.specs.Places.{pair_places};

    ghost Value = { List Standing };

    ghost view = { λ totals. totals.standings.items };

    ghost invariant = { λ totals. length totals.standings.items ≡ pair_places };
}

impl PairTotals {
    /// What no result earns.
    pub(crate) fn open(alloc: Global) -> Result<PairTotals, AllocError>
        ensures none { IfOk result (λ totals. AreStandings [] totals) }
        ensures small { IfOk result (λ totals. AreWithinBoard totals) }
    {
        let nothing = Standing {
            pair: pair_at(0),
            earned: 0,
            tops: 0,
        };
        let mut standings = filled(alloc, nothing, PAIRS as usize)?;
        stand(&mut standings, &[]);
        Ok(PairTotals { standings })
    }

    /// How a pair stands.
    pub(crate) fn at(&self, place: u8) -> Standing
        requires { place < pair_places }
        ensures { (d : Standing) → result ≡ get_or self.now place d }
    {
        self.standings[place as usize]
    }

    /// Makes them what these results earn.
    pub(crate) fn put(&mut self, earnings: &[Earning])
        requires { length earnings.now ≤ most_tables }
        ensures standings { AreStandings earnings.now self.new }
        ensures small { AreWithinBoard self.new }
    {
        stand(&mut self.standings, earnings);
    }

    /// Whether each pair stands by these as by the others.
    pub(crate) fn agrees(&self, other: &PairTotals) -> bool
        ensures { result ≡ true → AreAlike self.now other.now }
    {
        for place in 0..PAIRS {
            if !is_same_standing(self.at(place), other.at(place)) {
                return false;
            }
        }
        true
    }

    /// Puts what a board counts now in place of what it counted, each where it is seen. Most entries change nothing
    /// of what it counts for a class: then the totals are left alone.
    pub(crate) fn change(
        &mut self,
        saw: bool,
        old: &PairTotals,
        sees: bool,
        new: &PairTotals,
        is_same: bool,
    )
        requires { is_same ≡ true → AreAlike old.now new.now }
        ensures { (place : ℕ) (d : Standing) → place < pair_places →
            IsTotalWith saw (get_or old.now place d) sees (get_or new.now place d) (get_or self.old place d)
            (get_or self.new place d) }
    {
        if saw != sees || (sees && !is_same) {
            change(&mut self.standings, saw, old, sees, new);
        }
    }
}

/// Makes each pair's standing what these results earn it.
fn stand(standings: &mut Vec<Standing>, earnings: &[Earning])
    requires each { vec_len standings.old ≡ pair_places }
    requires few { length earnings.now ≤ most_tables }
    ensures each { vec_len standings.new ≡ pair_places }
    ensures standings { AreStandings earnings.now standings.new.items }
    ensures small { AreWithinBoard standings.new.items }
{
    for place in 0..PAIRS {
        standings[place as usize] = standing_of(earnings, pair_at(place));
    }
}

/// Whether two standings are the same.
fn is_same_standing(one: Standing, other: Standing) -> bool
    ensures { result ≡ true → one ≡ other }
{
    one.earned == other.earned && one.tops == other.tops && one.pair == other.pair
}

/// Changes each pair's standing by what a board counts.
fn change(standings: &mut Vec<Standing>, saw: bool, old: &PairTotals, sees: bool, new: &PairTotals)
    requires each { vec_len standings.old ≡ pair_places }
    ensures each { vec_len standings.new ≡ pair_places }
    ensures standings { (place : ℕ) (d : Standing) → place < pair_places →
        get_or standings.new.items place d
        ≡ total_with saw (get_or old.now place d) sees (get_or new.now place d) (get_or standings.old.items place d) }
{
    for place in 0..PAIRS {
        let total = standings[place as usize];
        standings[place as usize] = total_with(saw, old.at(place), sees, new.at(place), total);
    }
}

/// A total with what a board counts now in place of what it counted, each where it is seen. The board's part is in the
/// total, and no total is so great that it has to be cut off.
#[tactic(auto, unfolding(crate::specs::Kept::total_with))]
fn total_with(saw: bool, old: Standing, sees: bool, new: Standing, total: Standing) -> Standing
    ensures { result ≡ total_with saw old sees new total }
{
    Standing {
        pair: total.pair,
        earned: total
            .earned
            .saturating_sub(where_seen(saw, old.earned))
            .saturating_add(where_seen(sees, new.earned)),
        tops: total
            .tops
            .saturating_sub(where_seen(saw, old.tops))
            .saturating_add(where_seen(sees, new.tops)),
    }
}

/// A number where a test holds, and else nothing.
fn where_seen(sees: bool, number: u64) -> u64
    ensures { result ≡ where_seen sees number }
{
    if sees { number } else { 0 }
}
