// What is printed for a text, by what is printed for a network.
ghost use Rattle.std.specs.Prelude.{◌≡◌, List, ℕ, IfOk, string_bytes};
ghost use Rattle.records.specs.Refusals.{number, place};
ghost use Rattle.text_rules.specs.Reading.{reading};
ghost use Rattle.network.specs.Nets.{Net};
ghost use Rattle.text_table.specs.Stands.{net_of};
ghost use Rattle.answers.specs.Answered.{whole_room, refusal_line, PrintsRead, Prints};

use network::Network;
use records::{Leg, MOST_LEGS, MOST_STATIONS, Refusal, Station};
use std::alloc::{AllocError, Global};
use text_table::read_table;

// What is printed for any network. A trait and no closure: what is promised cites a ghost member, which a closure has not,
// and `answer` takes networks of any type.
pub trait NetworkAnswer {
    // a network, and bytes that may be printed for it
    ghost prints: { Net → List ℕ → Type 0 };

    fn answer<N: Network>(heap: Global, net: &N) -> Result<String, AllocError>
        ensures { IfOk result (λ s. prints (N.Network.meaning net.now) (string_bytes s)) };
}

// The line that tells a refusal.
pub fn refusal_text(heap: Global, refusal: Refusal) -> Result<String, AllocError>
    ensures { IfOk result (λ s. string_bytes s ≡ refusal_line (number refusal) (place refusal)) }
{
    format!(in heap; "c {refusal}\n")
}

// What is printed for a text: what is printed for the network that it states, or its refusal.
pub fn answer_by<A: NetworkAnswer>(heap: Global, text: &[u8]) -> Result<String, AllocError>
    ensures bytes { IfOk result (λ s. PrintsRead (λ net. A.prints (net_of net)) (reading whole_room text.now) (string_bytes s)) }
    ensures prints { IfOk result (λ s. Prints (λ net. A.prints (net_of net)) text.now (string_bytes s)) }
{
    let mut legs = vec![in heap; Leg::default(); MOST_LEGS]?;
    let mut stations = vec![in heap; Station::default(); MOST_STATIONS]?;
    match read_table(text, legs.as_mut_slice(), stations.as_mut_slice()) {
        Ok(table) => A::answer(heap, &table),
        Err(refusal) => refusal_text(heap, refusal),
    }
}
