//! Working tables and a guess that lead astray, for tests: a planning may read nothing that it finds in its tables, and has to mend
//! any guess.
#![tactic(auto)]

ghost use Rattle.planning.specs.Tables.{SameTables};
ghost use Rattle.std.specs.Prelude.{◌≡◌};
ghost use Rattle.poison.specs.Poisoned.{Poisoned, stray};

mod junk;

use costs::{Bikes, Cents, Pair};
pub use junk::Junk;
use planning::Tables;
use prices::Keyed;
use search::{Label, Links};
use simplex::{Arc, Link, Node, Offer};

/// What every entry of a slice that a call may write is before the call.
pub const UNTOUCHED: u8 = 77;

/// Links to legs that are not there, or to others than a chain has.
const ASTRAY: Links = Links {
    forth: Some(9),
    back: Some(65535),
};

/// An arc between nodes that no network has, turned round, with room for bikes and a cost that tempts.
const ARC: Arc = Arc {
    cost: -4_194_304,
    leg: 65535,
    capacity: 65535,
    tail: 255,
    head: 254,
    is_turned: true,
};

/// A node that hangs from one that no network has.
const NODE: Node = Node {
    link: Link {
        up: -1,
        down: 2_147_483_647,
        arc: 65534,
        parent: 255,
    },
    next: 255,
    previous: 254,
    depth: 255,
};

/// An arc that would better every plan.
const OFFER: Offer = Offer {
    cost: i64::MIN,
    arc: 65534,
};

/// A station that no network has, ahead of all others.
const KEYED: Keyed = Keyed {
    key: i64::MIN,
    station: 65535,
};

/// A label that no search has left.
fn stray<C>() -> Label<C>
    ensures { result ≡ stray }
{
    Label {
        changed: true,
        ..Label::default()
    }
}

/// Fills tables with something that no planning may read.
pub fn poison(tables: &mut Tables<'_>)
    ensures poisoned { Poisoned tables.new }
    ensures stay { SameTables tables.old tables.new }
{
    let far = Pair {
        first: Cents::new(i64::MAX),
        second: Bikes::new(i64::MIN),
    };
    tables.draft.amounts.fill(60_000);
    tables.draft.left.fill(-5);
    tables.potentials.fill(far);
    tables.simplex.lower.fill(ARC);
    tables.simplex.upper.fill(ARC);
    tables.simplex.nodes.fill(NODE);
    tables.simplex.potentials.fill(i64::MIN);
    tables.simplex.best.fill(OFFER);
    tables.marks.fill(true);
    tables.labels.fill(stray());
    tables.cents.fill(stray());
    tables.chains.heads.fill(ASTRAY);
    tables.chains.nexts.fill(ASTRAY);
    tables.queue.heap.fill(KEYED);
    tables.queue.places.fill(65535);
}
