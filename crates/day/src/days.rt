// A whole day, from its input to the lines that tell it.
ghost use Rattle.std.specs.Prelude.{IfOk, string_bytes};
ghost use Rattle.text_rules.specs.Reading.{reading};
ghost use Rattle.text_table.specs.Stands.{net_of};
ghost use Rattle.answers.specs.Answered.{Prints, PrintsRead, whole_room};
ghost use Rattle.piles.specs.Piles.{layered};
ghost use Rattle.day.specs.Days.{Day};

use crate::memory::Memory;
use crate::telling::told;
use answers::refusal_text;
use call_lines::{Sizes, calls_of, entries_of};
use network::Office;
use piles::{Layer, Pile};
use records::{Leg, MOST_LEGS, MOST_STATIONS, Station};
use std::alloc::{AllocError, Global};
use text_table::read_table;

// What is told of an input on a network: the calls with their answers, or one refusal where they take more memory than a day is lent.
pub fn day_text<N: Office + Drop>(heap: Global, net: N, input: &[u8]) -> Result<String, AllocError>
    ensures { IfOk result (λ s. Day (N.Network.meaning net) input.now (string_bytes s)) }
{
    let sizes = Sizes::of(&net);
    let entries = entries_of(heap, input, sizes)?;
    let calls = calls_of(heap, entries.as_slice())?;
    let mut memory = Memory::new(heap, sizes.legs, calls.as_slice())?;
    match memory.run(net, calls.as_slice()) {
        Ok(()) => told(heap, sizes, entries.as_slice(), &memory.rest()),
        Err(refusal) => refusal_text(heap, refusal),
    }
}

// The same on a network under two layers, the first of which is the lower one.
pub fn layered_day<N: Office + Drop>(
    heap: Global,
    net: N,
    first: Option<Layer>,
    second: Option<Layer>,
    input: &[u8],
) -> Result<String, AllocError>
    ensures { IfOk result (λ s. Day (layered second (layered first (N.Network.meaning net))) input.now (string_bytes s)) }
{
    day_text(heap, Pile::new(Pile::new(net, first), second), input)
}

// The same on the network that a text states, or the refusal of the text. The lines are those of `answers::answer_by`, whose ways to
// answer have no values of their own, as layers and an input are.
pub fn text_day(
    heap: Global,
    text: &[u8],
    first: Option<Layer>,
    second: Option<Layer>,
    input: &[u8],
) -> Result<String, AllocError>
    ensures bytes { IfOk result (λ s. PrintsRead (λ net. Day (layered second (layered first (net_of net))) input.now) (reading whole_room text.now) (string_bytes s)) }
    ensures prints { IfOk result (λ s. Prints (λ net. Day (layered second (layered first (net_of net))) input.now) text.now (string_bytes s)) }
{
    let mut legs = vec![in heap; Leg::default(); MOST_LEGS]?;
    let mut stations = vec![in heap; Station::default(); MOST_STATIONS]?;
    match read_table(text, legs.as_mut_slice(), stations.as_mut_slice()) {
        Ok(table) => layered_day(heap, table, first, second, input),
        Err(refusal) => refusal_text(heap, refusal),
    }
}
