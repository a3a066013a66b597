//! A claim of prices, made from potentials. It is checked, so nothing is promised of it but what stays.
ghost use Rattle.std.specs.Prelude.{◌≡◌, drop};
ghost use Rattle.plans.specs.Plans.{stations as count_of};
ghost use Rattle.prices.specs.Queues.{SameQueue};
ghost use Rattle.search.specs.Chains.{SameChains};

use crate::queue::{Keyed, Queue};
use crate::totals::total_at;
use costs::{Cents, CentsThenBikes};
use network::Network;
use plans::Direction;
use search::{Arrival, Chains, Label, Links};
use steps::{Fees, InCents, Load, Step};

// The residual network of a plan, with the potentials by which its steps have reduced cents: the cents
// of a step and of the potential where it begins, less those of the potential where it ends.
#[derive_where(Clone, Copy)]
struct Reduced<'a, N> {
    net: &'a N,
    plan: &'a [u16],
    potentials: &'a [CentsThenBikes],
}

// The leg to which links lead on, if there is one.
#[inline(always)]
fn link(direction: Direction, links: &[Links], number: usize) -> Option<u16> {
    let Some(links) = links.get(number) else {
        return None;
    };
    match direction {
        Direction::Forth => links.forth,
        Direction::Back => links.back,
    }
}

// Puts a leg at the head of its start's chain if a bike can go forth over it, and at the head of its
// end's chain if one can go back. A leg with an end that is no station is left out.
#[inline(always)]
fn link_load(number: u16, load: Load, heads: &mut [Links], nexts: &mut [Links]) {
    let start = usize::from(load.leg.start);
    let end = usize::from(load.leg.end);
    let leg = usize::from(number);
    if leg >= nexts.len() || start >= heads.len() || end >= heads.len() {
        return;
    }
    if load.residual(Direction::Forth) > 0 {
        nexts[leg].forth = heads[start].forth;
        heads[start].forth = Some(number);
    }
    if load.residual(Direction::Back) > 0 {
        nexts[leg].back = heads[end].back;
        heads[end].back = Some(number);
    }
}

// Labels a station with how a walk arrives.
#[inline(always)]
fn put_label(labels: &mut [Label<Cents>], station: usize, total: i64, last: Option<Step>) {
    if station < labels.len() {
        labels[station] = Label {
            arrival: Some(Arrival {
                total: Cents::new(total),
                last,
            }),
            better: None,
            changed: false,
        };
    }
}

impl<N: Network> Reduced<'_, N> {
    // The cents of a station's potential, 0 where it is missing.
    #[inline(always)]
    fn potential(&self, station: usize) -> i64 {
        let Some(potential) = self.potentials.get(station) else {
            return 0;
        };
        potential.first.0
    }

    // Links the residual steps from each of the first stations.
    fn link(&self, heads: &mut [Links], nexts: &mut [Links]) {
        heads.fill(Links::default());
        for number in 0..self.net.legs() {
            if let Some(load) = Load::of(self.net, self.plan, number) {
                // no network has as many legs as 16 bits count
                link_load(number as u16, load, heads, nexts);
            }
        }
    }

    // Labels each of the first stations as a start, and queues it.
    fn begin(&self, count: usize, labels: &mut [Label<Cents>], queue: &mut Queue<'_>)
        ensures { SameQueue queue.old queue.new }
    {
        for station in 0..count {
            put_label(labels, station, 0, None);
            let key = self.potential(station).wrapping_neg();
            queue.put(Keyed { key, station }, station);
        }
        queue.arrange(count);
    }

    // Goes on over a residual step from a station whose total is given.
    #[inline(always)]
    fn relax(&self, step: Step, total: i64, labels: &mut [Label<Cents>], queue: &mut Queue<'_>)
        ensures { SameQueue queue.old queue.new }
    {
        let Some(load) = Load::of(self.net, self.plan, step.leg) else {
            return;
        };
        let station = usize::from(load.head(step.direction));
        let total = total.wrapping_add(InCents.fee(step.direction, load).0);
        if total >= total_at(labels, station) {
            return;
        }
        let key = total.wrapping_sub(self.potential(station));
        if queue.lower(Keyed { key, station }) {
            put_label(labels, station, total, Some(step));
        }
    }

    // Goes on over the steps of one direction from a station, from the first leg of its chain on. No
    // chain has more legs than the network.
    #[inline(always)]
    fn walk(
        &self,
        direction: Direction,
        first: Option<u16>,
        nexts: &[Links],
        total: i64,
        labels: &mut [Label<Cents>],
        queue: &mut Queue<'_>,
    )
        ensures { SameQueue queue.old queue.new }
    {
        let mut next = first;
        for _leg in 0..self.net.legs() {
            let Some(number) = next else {
                break;
            };
            let leg = usize::from(number);
            self.relax(Step { direction, leg }, total, labels, queue);
            next = link(direction, nexts, leg);
        }
    }

    // Goes on over all steps from a station.
    fn visit(
        &self,
        station: usize,
        heads: &[Links],
        nexts: &[Links],
        labels: &mut [Label<Cents>],
        queue: &mut Queue<'_>,
    )
        ensures { SameQueue queue.old queue.new }
    {
        let total = total_at(labels, station);
        let forth = link(Direction::Forth, heads, station);
        let back = link(Direction::Back, heads, station);
        self.walk(Direction::Forth, forth, nexts, total, labels, queue);
        self.walk(Direction::Back, back, nexts, total, labels, queue);
    }

    // Labels each of the first stations with its least total, if no reduced cents are below zero.
    fn settle(
        &self,
        count: usize,
        heads: &[Links],
        nexts: &[Links],
        labels: &mut [Label<Cents>],
        queue: &mut Queue<'_>,
    )
        ensures { SameQueue queue.old queue.new }
    {
        self.begin(count, labels, queue);
        for taken in 0..count {
            let station = queue.take_least(count - taken, taken);
            self.visit(station, heads, nexts, labels, queue);
        }
    }
}

/// Claims prices under a plan: labels with totals and last steps, and in the queue's places a rank for
/// each station. It is Dijkstra's search for least totals, from every station, over the residual steps
/// at their reduced cents. Where none of these is below zero, and all slices are long enough, the
/// totals are the prices. Potentials that are missing count as 0. Where there are fewer labels or heads
/// than stations nothing is done.
pub fn claim<N: Network>(
    net: &N,
    plan: &[u16],
    potentials: &[CentsThenBikes],
    labels: &mut [Label<Cents>],
    chains: &mut Chains<'_>,
    queue: &mut Queue<'_>,
)
    ensures beyond { drop (count_of (N.Network.meaning net.now)) labels.new
        ≡ drop (count_of (N.Network.meaning net.now)) labels.old }
    ensures chains_stay { SameChains chains.old chains.new }
    ensures queue_stays { SameQueue queue.old queue.new }
{
    let stations = net.stations();
    if labels.len() < stations || chains.heads.len() < stations {
        return;
    }
    let heads = &mut *chains.heads;
    let nexts = &mut *chains.nexts;
    let reduced = Reduced {
        net,
        plan,
        potentials,
    };
    reduced.link(&mut heads[..stations], nexts);
    reduced.settle(stations, heads, nexts, &mut labels[..stations], queue);
}
