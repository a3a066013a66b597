// By how much a potential rises over a leg.
ghost use Rattle.std.specs.Prelude.{◌≡◌, ◌^◌, ◌≤◌, max, unsigned_abs};
ghost use Rattle.certificates.specs.Mends.{rise};
ghost use Rattle.costs.specs.Kinds.{both_kind};
ghost use Rattle.planning.specs.Potentials.{nearest_in_reach, potential};

use costs::{Bikes, Cents, CentsThenBikes, Cost, Pair};
use records::Leg;

// How far from 0 the parts of a potential may be, so that sums of them are exact.
const REACH: i64 = 1 << 40;

// The nearest number within reach.
fn into_reach(number: i64) -> i64
    ensures { result ≡ nearest_in_reach number }
{
    number.clamp(-REACH, REACH)
}

// What a slice of potentials says of a station, 0 where it says nothing, each part within reach.
fn potential_at(potentials: &[CentsThenBikes], station: u16) -> CentsThenBikes
    ensures worth { both_kind.worth result ≡ potential potentials.now station }
    ensures near { max (unsigned_abs result.first.0) (unsigned_abs result.second.0) ≤ 2 ^ 40 }
{
    let Some(stated) = potentials.get(usize::from(station)) else {
        return CentsThenBikes::zero();
    };
    Pair {
        first: Cents::new(into_reach(stated.first.0)),
        second: Bikes::new(into_reach(stated.second.0)),
    }
}

// By how much the potential of a leg's end is above that of its start.
pub(crate) fn rise(leg: Leg, potentials: &[CentsThenBikes]) -> CentsThenBikes
    ensures { both_kind.worth result ≡ rise leg (potential potentials.now) }
{
    let start = potential_at(potentials, leg.start);
    let end = potential_at(potentials, leg.end);
    end.sum(start.negative())
}
