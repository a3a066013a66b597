// What a plan leaves over at the stations.
ghost use Rattle.std.specs.Prelude.{◌≡◌, ◌+◌, ◌^◌, ◌<◌, length, sum_by};
ghost use Rattle.certificates.specs.Totals.{over};
ghost use Rattle.planning.specs.Drafts.{SameDraft};
ghost use Rattle.planning.specs.Leavings.{Left, Written};
ghost use Rattle.plans.specs.Plans.{stations};

use crate::draft::Draft;
use network::{Network, balance_of};

// Writes the balances: what is left over where nothing is carried. A balance that is missing counts as 0.
fn write_balances<N: Network>(net: &N, left: &mut [i64])
    ensures { Written (N.Network.meaning net.now) left.new }
{
    for (station, entry) in left.iter_mut().enumerate() {
        *entry = i64::from(balance_of(net, station));
    }
}

// Takes what one leg carries from what is left over at its start, and adds it at its end.
fn carry<N: Network>(net: &N, number: usize, draft: &mut Draft<'_>)
    requires there { number < length (N.Network.meaning net.now).legs }
    requires long { number < length draft.old.amounts.now }
    requires left { Left (N.Network.meaning net.now) draft.old.amounts.now number
        draft.old.left.now }
    ensures left { Left (N.Network.meaning net.now) draft.old.amounts.now (number + 1)
        draft.new.left.now }
    ensures amounts { draft.new.amounts.now ≡ draft.old.amounts.now }
    ensures stay { SameDraft draft.old draft.new }
{
    let Some(leg) = net.leg(number) else {
        return;
    };
    let bikes = draft.amounts[number];
    if bikes == 0 {
        return;
    }
    draft.hand_over(usize::from(leg.start), usize::from(leg.end), bikes);
}

// The same of every leg.
fn carry_all<N: Network>(net: &N, draft: &mut Draft<'_>)
    requires long { length draft.old.amounts.now ≡ length (N.Network.meaning net.now).legs }
    requires left { Left (N.Network.meaning net.now) draft.old.amounts.now 0 draft.old.left.now }
    ensures left { Left (N.Network.meaning net.now) draft.old.amounts.now
        (length (N.Network.meaning net.now).legs) draft.new.left.now }
    ensures amounts { draft.new.amounts.now ≡ draft.old.amounts.now }
    ensures stay { SameDraft draft.old draft.new }
{
    for number in 0..net.legs() {
        carry(net, number, draft);
    }
}

// Writes what a plan leaves over, into a slice with one entry for each station.
pub(crate) fn leave<N: Network>(net: &N, plan: &mut [u16], left: &mut [i64])
    requires long { length plan.old ≡ length (N.Network.meaning net.now).legs }
    requires left { length left.old ≡ stations (N.Network.meaning net.now) }
    ensures left { Left (N.Network.meaning net.now) plan.old
        (length (N.Network.meaning net.now).legs) left.new }
    ensures plan { plan.new ≡ plan.old }
{
    write_balances(net, left);
    let mut draft = Draft {
        amounts: plan,
        left,
    };
    carry_all(net, &mut draft);
}

// The bikes that are over at a station, 0 where bikes are lacking.
fn over_at(left: i64) -> u64
    ensures { result ≡ over left }
{
    u64::try_from(left).unwrap_or(0)
}

// The bikes that are over at all stations together.
pub(crate) fn total_over(left: &[i64]) -> u64
    requires { sum_by over left.now < 2 ^ 64 }
    ensures { result ≡ sum_by over left.now }
{
    left.iter().map(|entry| over_at(*entry)).sum()
}
