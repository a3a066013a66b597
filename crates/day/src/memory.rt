// The memory that is lent to a day's run.
ghost use Rattle.std.specs.Prelude.{◌≡◌, ℕ, ◌+◌, ◌≤◌, ◌⊎◌, IfOk, length};
ghost use Rattle.tally.specs.Tallies.{Tally, fresh};
ghost use Rattle.board.specs.Running.{Fits, WholeRan, given, lending};
ghost use Rattle.day.specs.Rests.{lent_from};
ghost use Rattle.day.specs.Memories.{Both, Made, Suffices, handed_by, most_lent};

use crate::telling::Rest;
use board::entries::Entries;
use board::{Sheet, run};
use network::Office;
use planning::Tables;
use records::Refusal;
use std::alloc::{AllocError, Global};
use tally::{Answer, Call};
use workspace::Workspace;

// No day is lent more entries of one kind. So a call with lengths beyond all reason is refused, and does not use up the machine.
const MOST_ENTRIES: usize = 4_000_000;

// The entries for two after each other, as far as a day is lent so many.
fn together(a: usize, b: usize) -> usize
    ensures { (n : ℕ) → n ≤ 4000000 → n ≤ a + b → n ≤ result }
{
    a.saturating_add(b).min(MOST_ENTRIES)
}

// The entries for two that take turns, as far as a day is lent so many.
fn in_turns(a: usize, b: usize) -> usize
    ensures { (n : ℕ) → n ≤ 4000000 → (n ≤ a) ⊎ (n ≤ b) → n ≤ result }
{
    a.max(b).min(MOST_ENTRIES)
}

// What is taken by one and then by another, as far as a day is lent so much. Working tables serve both.
fn both(a: Entries, b: Entries) -> Entries
    ensures { Both a b result }
{
    Entries {
        prices: together(a.prices, b.prices),
        numbers: together(a.numbers, b.numbers),
        amounts: together(a.amounts, b.amounts),
        stations: in_turns(a.stations, b.stations),
        legs: in_turns(a.legs, b.legs),
    }
}

// What the calls take, where there are so many legs, as far as a day is lent so much.
fn room(legs: usize, calls: &[Call]) -> Entries
    ensures { Fits legs calls.now (length calls.now) most_lent → Fits legs calls.now (length calls.now) result }
{
    let mut taken = Entries::default();
    for call in calls {
        taken = both(taken, Entries::of_call(legs, *call));
    }
    taken
}

// Makes the calls on a new board, with what is lent. The slices of a sheet come one by one: a sheet is made of them here, where it is
// known afterwards what they hold.
fn run_with<N: Office + Drop>(
    net: N,
    calls: &[Call],
    answers: &mut [Answer],
    prices: &mut [i64],
    numbers: &mut [usize],
    amounts: &mut [u16],
    tables: &mut Tables<'_>,
) -> Result<(), Refusal>
    ensures { (last : Tally) × WholeRan result (given (lending prices.old numbers.old amounts.old) tables.old) (fresh (N.Network.meaning net)) last calls.now answers.old answers.new (lending prices.old numbers.old amounts.old) (lending prices.new numbers.new amounts.new) }
{
    let mut sheet = Sheet {
        prices,
        numbers,
        amounts,
    };
    let (_, result) = run(net, calls, answers, &mut sheet, tables);
    result
}

// Answers, what the calls hand out, and working tables.
#[derive(Drop)]
pub(crate) struct Memory {
    answers: Vec<Answer>,
    prices: Vec<i64>,
    numbers: Vec<usize>,
    amounts: Vec<u16>,
    workspace: Workspace,
}

impl Memory {
    // Memory that suffices for the calls, where there are so many legs, unless they take more than a day is lent.
    pub(crate) fn new(heap: Global, legs: usize, calls: &[Call]) -> Result<Memory, AllocError>
        ensures { IfOk result (Suffices legs calls.now) }
    {
        let room = room(legs, calls);
        Ok(Memory {
            answers: vec![in heap; Answer::Done; calls.len()]?,
            prices: vec![in heap; 0; room.prices]?,
            numbers: vec![in heap; 0; room.numbers]?,
            amounts: vec![in heap; 0; room.amounts]?,
            workspace: Workspace::new(heap, room.stations, room.legs)?,
        })
    }

    // Makes the calls on a new board.
    pub(crate) fn run<N: Office + Drop>(&mut self, net: N, calls: &[Call]) -> Result<(), Refusal>
        ensures { Made result (N.Network.meaning net) calls.now self.old self.new.answers.items (handed_by self.new) }
    {
        let mut tables = self.workspace.lend();
        run_with(
            net,
            calls,
            self.answers.as_mut_slice(),
            self.prices.as_mut_slice(),
            self.numbers.as_mut_slice(),
            self.amounts.as_mut_slice(),
            &mut tables,
        )
    }

    // All that was answered and handed out.
    pub(crate) fn rest(&self) -> Rest<'_>
        ensures answers { result.answers.now ≡ self.now.answers.items }
        ensures handed { lent_from result ≡ handed_by self.now }
    {
        Rest {
            answers: self.answers.as_slice(),
            prices: self.prices.as_slice(),
            numbers: self.numbers.as_slice(),
            amounts: self.amounts.as_slice(),
        }
    }
}
