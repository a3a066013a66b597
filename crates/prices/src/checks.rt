//! Whether totals that are claimed to be prices are.
ghost use Rattle.std.specs.Prelude.{◌≡◌, ℕ, ◌<◌, ◌↔◌, IsTrue, length, pos, ◌+ℤ◌, ◌≤ℤ◌, slice_index};
ghost use Rattle.plans.specs.Plans.{stations as count_of};
ghost use Rattle.plans.specs.Prices.{CentsRoundTrip, Prices};
ghost use Rattle.prices.specs.Claims.{Attains, AttainsBy, Confirmed, IsKept, IsKeptBy, Stands, total_at};
ghost use Rattle.search.specs.Labels.{last_at};
ghost use Rattle.prices.specs.Priced.{totals};

use crate::totals::total_at;
use costs::Cents;
use network::Network;
use plans::Direction;
use records::Leg;
use search::Label;
use steps::{Load, Step};

// The last step in the label of a station, if there is one.
fn last_at(labels: &[Label<Cents>], station: usize) -> Option<Step>
    ensures { result ≡ last_at labels.now station }
{
    labels.get(station)?.arrival?.last
}

// The rank of a station, 0 where it is missing.
fn rank_at(ranks: &[usize], station: usize) -> usize
    ensures { result ≡ slice_index ranks.now station }
{
    ranks.get(station).copied().unwrap_or(0)
}

// The total of a walk that goes on over a leg from its start. Where the total there is not above 0 no
// sum with a charge wraps.
#[inline(always)]
fn reached(labels: &[Label<Cents>], leg: Leg) -> i64
    requires { total_at labels.now leg.start ≤ℤ pos 0 }
    ensures { result ≡ total_at labels.now leg.start +ℤ pos leg.charge }
{
    total_at(labels, usize::from(leg.start)) + i64::from(leg.charge)
}

// Whether no step over a leg undercuts the totals.
#[inline(always)]
fn is_kept(labels: &[Label<Cents>], load: Load) -> bool
    requires { total_at labels.now load.leg.start ≤ℤ pos 0 }
    ensures { IsTrue result ↔ IsKept labels.now load }
{
    let reached = reached(labels, load.leg);
    let end = total_at(labels, usize::from(load.leg.end));
    (load.residual(Direction::Forth) == 0 || end <= reached)
        && (load.residual(Direction::Back) == 0 || reached <= end)
}

// A claim of prices under a plan: labels, and the ranks of the stations.
#[derive_where(Clone, Copy)]
struct Claim<'a, N> {
    net: &'a N,
    plan: &'a [u16],
    labels: &'a [Label<Cents>],
    ranks: &'a [usize],
}

impl<N: Network> Claim<'_, N> {
    // Whether no step over a leg by its number undercuts the totals, of which none is above 0. A leg
    // with an end that is no station has no step.
    fn is_kept_by(&self, number: usize) -> bool
        requires { (v : ℕ) → v < count_of (N.Network.meaning self.now.net.now)
            → total_at self.now.labels.now v ≤ℤ pos 0 }
        ensures { IsTrue result
            ↔ IsKeptBy (N.Network.meaning self.now.net.now) self.now.plan.now self.now.labels.now number }
    {
        let Some(load) = Load::joined(self.net, self.plan, number) else {
            return true;
        };
        is_kept(self.labels, load)
    }

    // Whether a step over a leg leads to the total of a station, from a station of lower rank.
    fn attains(&self, station: usize, direction: Direction, load: Load) -> bool
        ensures { IsTrue result ↔ Attains self.now.labels.now self.now.ranks.now station direction load }
    {
        let start = total_at(self.labels, usize::from(load.leg.start));
        let end = total_at(self.labels, usize::from(load.leg.end));
        let from = usize::from(load.tail(direction));
        // a difference beyond the limits of the type is no charge
        load.residual(direction) > 0
            && usize::from(load.head(direction)) == station
            && end.saturating_sub(start) == i64::from(load.leg.charge)
            && rank_at(self.ranks, from) < rank_at(self.ranks, station)
    }

    // Whether the last step in the label of a station does.
    fn attains_by_last(&self, station: usize) -> bool
        ensures { IsTrue result
            ↔ AttainsBy (N.Network.meaning self.now.net.now) self.now.plan.now self.now.labels.now
            self.now.ranks.now station (last_at self.now.labels.now station) }
    {
        let Some(last) = last_at(self.labels, station) else {
            return false;
        };
        let Some(load) = Load::joined(self.net, self.plan, last.leg) else {
            return false;
        };
        self.attains(station, last.direction, load)
    }

    // Whether the total of a station stands.
    fn stands(&self, station: usize) -> bool
        ensures { IsTrue result
            ↔ Stands (N.Network.meaning self.now.net.now) self.now.plan.now self.now.labels.now
            self.now.ranks.now station }
    {
        let total = total_at(self.labels, station);
        total == 0 || (total < 0 && self.attains_by_last(station))
    }

    // Whether the total of each station stands.
    fn all_stand(&self) -> bool
        ensures { IsTrue result ↔ ((v : ℕ) → v < count_of (N.Network.meaning self.now.net.now)
            → Stands (N.Network.meaning self.now.net.now) self.now.plan.now self.now.labels.now
            self.now.ranks.now v) }
    {
        for station in 0..self.net.stations() {
            if !self.stands(station) {
                return false;
            }
        }
        true
    }

    // Whether no step over any leg undercuts the totals, of which none is above 0.
    fn all_kept(&self) -> bool
        requires { (v : ℕ) → v < count_of (N.Network.meaning self.now.net.now)
            → total_at self.now.labels.now v ≤ℤ pos 0 }
        ensures { IsTrue result ↔ ((k : ℕ) → k < length (N.Network.meaning self.now.net.now).legs
            → IsKeptBy (N.Network.meaning self.now.net.now) self.now.plan.now self.now.labels.now k) }
    {
        for number in 0..self.net.legs() {
            if !self.is_kept_by(number) {
                return false;
            }
        }
        true
    }

    // Whether the claim is confirmed.
    fn is_confirmed(&self) -> bool
        ensures { IsTrue result
            ↔ Confirmed (N.Network.meaning self.now.net.now) self.now.plan.now self.now.labels.now
            self.now.ranks.now }
    {
        self.all_stand() && self.all_kept()
    }
}

/// Whether the totals of labels are confirmed to be the prices under a plan: none is above 0, no step
/// undercuts them, and at each station below 0 the label's last step leads to its total by exactly its
/// cents, from a station of lower rank. A label that is missing or without an arrival counts as 0 with
/// no last step, a missing rank as 0.
pub fn is_claim_confirmed<N: Network>(
    net: &N,
    plan: &[u16],
    labels: &[Label<Cents>],
    ranks: &[usize],
) -> bool
    ensures decides { IsTrue result
        ↔ Confirmed (N.Network.meaning net.now) plan.now labels.now ranks.now }
    ensures no_round_trip { IsTrue result → CentsRoundTrip (N.Network.meaning net.now) plan.now → ⊥ }
    ensures prices { IsTrue result → Prices (N.Network.meaning net.now) plan.now
        (totals (count_of (N.Network.meaning net.now)) labels.now) }
{
    let claim = Claim {
        net,
        plan,
        labels,
        ranks,
    };
    claim.is_confirmed()
}
