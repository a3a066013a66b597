// The memory that is lent to a run, all filled with something that no call may read.
use board::entries::Entries;
use board::{Sheet, run};
use network::Office;
use poison::{UNTOUCHED, poison};
use records::{MOST_LEGS, MOST_STATIONS, Refusal};
use std::alloc::{AllocError, Global};
use tally::{Answer, Call};
use workspace::Workspace;

// More than any run here takes.
pub const ALL: Entries = Entries {
    prices: 500,
    numbers: 500,
    amounts: 500,
    stations: MOST_STATIONS + 1,
    legs: MOST_LEGS + 1,
};

// What a run answers and hands out, and its working tables. Vectors of its own: they are read when the sheet is given back. What is lent
// to one planning is another struct, in its tests: it has no answers, and parts of tables in place of a sheet.
#[derive(Drop)]
pub struct Memory {
    pub answers: Vec<Answer>,
    pub prices: Vec<i64>,
    pub numbers: Vec<usize>,
    pub amounts: Vec<u16>,
    workspace: Workspace,
}

impl Memory {
    // Memory for so many answers, and with so many entries.
    pub(crate) fn new(heap: Global, answers: usize, lent: Entries) -> Result<Memory, AllocError> {
        Ok(Memory {
            answers: vec![in heap; Answer::Listed {
                count: usize::from(UNTOUCHED)
            }; answers]?,
            prices: vec![in heap; i64::from(UNTOUCHED); lent.prices]?,
            numbers: vec![in heap; usize::from(UNTOUCHED); lent.numbers]?,
            amounts: vec![in heap; u16::from(UNTOUCHED); lent.amounts]?,
            workspace: Workspace::new(heap, lent.stations, lent.legs)?,
        })
    }

    // Makes the calls on a new board.
    pub(crate) fn run<N: Office + Drop>(&mut self, net: N, calls: &[Call]) -> Result<(), Refusal> {
        let mut tables = self.workspace.lend();
        poison(&mut tables);
        let mut sheet = Sheet {
            prices: self.prices.as_mut_slice(),
            numbers: self.numbers.as_mut_slice(),
            amounts: self.amounts.as_mut_slice(),
        };
        let (_, result) = run(
            net,
            calls,
            self.answers.as_mut_slice(),
            &mut sheet,
            &mut tables,
        );
        result
    }
}
