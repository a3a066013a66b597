// What `canonical` prints: the canonical text of a network.
ghost use Rattle.std.specs.Prelude.{◌≡◌, IfOk, string_bytes};
ghost use Rattle.text_rules.specs.Reading.{reading};
ghost use Rattle.writer.specs.Canonical.{canonical};
ghost use Rattle.answers.specs.Answered.{whole_room, Prints};
ghost use Rattle.answers.specs.Printed.{as_stations, printed, PrintsNet, PrintsStated};

use crate::text_answer::{NetworkAnswer, answer_by};
use network::Network;
use records::{Leg, Station};
use std::alloc::{AllocError, Global};
use writer::network_text;

// The legs of a network, as it answers them.
fn legs_of<N: Network>(heap: Global, net: &N) -> Result<Vec<Leg>, AllocError>
    ensures { IfOk result (λ v. v.items ≡ (N.Network.meaning net.now).legs) }
{
    (0..net.legs()).filter_map(|i| net.leg(i)).collect(heap)
}

// The stations of a network, by the balances that it answers.
fn stations_of<N: Network>(heap: Global, net: &N) -> Result<Vec<Station>, AllocError>
    ensures { IfOk result (λ v. v.items ≡ as_stations (N.Network.meaning net.now).balances) }
{
    (0..net.stations())
        .filter_map(|i| net.balance(i))
        .map(|balance| Station { balance })
        .collect(heap)
}

// The canonical text of a network, from its answers.
pub fn canonical_text<N: Network>(heap: Global, net: &N) -> Result<String, AllocError>
    ensures { IfOk result (λ s. string_bytes s ≡ canonical (as_stations (N.Network.meaning net.now).balances) (N.Network.meaning net.now).legs) }
{
    let stations = stations_of(heap, net)?;
    let legs = legs_of(heap, net)?;
    network_text(heap, stations.as_slice(), legs.as_slice())
}

// The canonical text is printed. A struct to each way to answer, since what a way prints is a member of its trait.
pub struct Canonical;

impl NetworkAnswer for Canonical {
    ghost prints = { PrintsNet };

    fn answer<N: Network>(heap: Global, net: &N) -> Result<String, AllocError> {
        canonical_text(heap, net)
    }
}

// What is printed for a text: the canonical text of the network that it states, or its refusal.
pub fn answer_text(heap: Global, text: &[u8]) -> Result<String, AllocError>
    ensures bytes { IfOk result (λ s. string_bytes s ≡ printed (reading whole_room text.now)) }
    ensures prints { IfOk result (λ s. Prints PrintsStated text.now (string_bytes s)) }
{
    answer_by::<Canonical>(heap, text)
}
