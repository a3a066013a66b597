// The lines that tell what the calls of a day answered.
ghost use Rattle.std.specs.Prelude.{◌≡◌, ◌++◌, IfOk, drop, string_bytes};
ghost use Rattle.writer.specs.Canonical.{Appends};
ghost use Rattle.tally.specs.Follows.{papers};
ghost use Rattle.tally.specs.Runs.{answer_at};
ghost use Rattle.day.specs.Lines.{amounts_line, answers_behind, call_line, cut_line, day_lines, entry_lines, handed_lines, lent_behind, list_line, no_call_line, prices_line};
ghost use Rattle.day.specs.Rests.{lent_from};

use board::entries::Entries;
use call_lines::Sizes;
use records::Refusal;
use slices::first;
use std::alloc::{AllocError, Global};
use tally::{Answer, Call};

// What calls answered and were handed, from one of them on.
#[derive(Clone, Copy)]
pub(crate) struct Rest<'a> {
    pub(crate) answers: &'a [Answer],
    pub(crate) prices: &'a [i64],
    pub(crate) numbers: &'a [usize],
    pub(crate) amounts: &'a [u16],
}

// What is left of a slice behind its first so many entries.
fn behind<T>(slice: &[T], count: usize) -> &[T]
    ensures { result.now ≡ drop count slice.now }
{
    &slice[count.min(slice.len())..]
}

impl<'a> Rest<'a> {
    // The answer to the first call.
    fn answer(&self) -> Answer
        ensures { result ≡ answer_at self.now.answers.now 0 }
    {
        self.answers.first().copied().unwrap_or(Answer::Done)
    }

    // What is left behind an entry, where there are so many legs.
    fn behind(&self, legs: usize, entry: Option<Call>) -> Rest<'a>
        ensures answers { result.answers.now ≡ answers_behind entry self.now.answers.now }
        ensures lent { lent_from result ≡ lent_behind legs entry (lent_from self.now) }
    {
        let Some(call) = entry else {
            return *self;
        };
        let taken = Entries::of_call(legs, call);
        Rest {
            answers: behind(self.answers, 1),
            prices: behind(self.prices, taken.prices),
            numbers: behind(self.numbers, taken.numbers),
            amounts: behind(self.amounts, taken.amounts),
        }
    }
}

// Appends the line of the amounts. A function for each of the four lines: what a slice is shown as is promised by its type, and a line
// by its word.
fn tell_amounts(out: &mut String, amounts: &[u16]) -> Result<(), AllocError>
    ensures { Appends result out.old out.new (amounts_line amounts.now) }
{
    writeln!(out, "  amounts {amounts:?}")
}

// Appends the line of the prices.
fn tell_prices(out: &mut String, prices: &[i64]) -> Result<(), AllocError>
    ensures { Appends result out.old out.new (prices_line prices.now) }
{
    writeln!(out, "  prices {prices:?}")
}

// Appends the line of a cut.
fn tell_cut(out: &mut String, cut: &[usize]) -> Result<(), AllocError>
    ensures { Appends result out.old out.new (cut_line cut.now) }
{
    writeln!(out, "  cut {cut:?}")
}

// Appends the line of a list.
fn tell_list(out: &mut String, list: &[usize]) -> Result<(), AllocError>
    ensures { Appends result out.old out.new (list_line list.now) }
{
    writeln!(out, "  list {list:?}")
}

// Appends what an answer hands out, where there are so many stations: the plan and the prices, the cut, or the list.
fn tell_handed(
    out: &mut String,
    stations: usize,
    answer: Answer,
    prices: &[i64],
    numbers: &[usize],
    amounts: &[u16],
) -> Result<(), AllocError>
    ensures { Appends result out.old out.new (handed_lines stations answer (papers prices.now numbers.now) amounts.now) }
{
    match answer {
        Answer::Planned { .. } => {
            tell_amounts(out, amounts)?;
            tell_prices(out, first(prices, stations))
        }
        Answer::Refused {
            refusal: Refusal::NoPlanObeys { cut },
        } => tell_cut(out, first(numbers, cut)),
        Answer::Listed { count } => tell_list(out, first(numbers, count)),
        _ => Ok(()),
    }
}

// Appends a call and its answer, with the number of its line.
fn tell_call(out: &mut String, number: usize, call: Call, answer: Answer) -> Result<(), AllocError>
    ensures { Appends result out.old out.new (call_line number call answer) }
{
    writeln!(out, "{number} {call}: {answer}")
}

// Appends a line that tells no call.
fn tell_no_call(out: &mut String, number: usize) -> Result<(), AllocError>
    ensures { Appends result out.old out.new (no_call_line number) }
{
    writeln!(out, "{number}: no call has this form")
}

// Appends what is told of an entry, with the number of its line.
fn tell_entry(
    out: &mut String,
    sizes: Sizes,
    number: usize,
    entry: Option<Call>,
    rest: &Rest<'_>,
) -> Result<(), AllocError>
    ensures { Appends result out.old out.new (entry_lines sizes number entry rest.now.answers.now (lent_from rest.now)) }
{
    let Some(call) = entry else {
        return tell_no_call(out, number);
    };
    let taken = Entries::of_call(sizes.legs, call);
    let answer = rest.answer();
    tell_call(out, number, call, answer)?;
    tell_handed(
        out,
        sizes.stations,
        answer,
        first(rest.prices, taken.prices),
        first(rest.numbers, taken.numbers),
        first(rest.amounts, taken.amounts),
    )
}

// The lines that tell a day: each call with its answer, and each line that tells no call.
pub(crate) fn told(
    heap: Global,
    sizes: Sizes,
    entries: &[Option<Call>],
    all: &Rest<'_>,
) -> Result<String, AllocError>
    ensures { IfOk result (λ s. string_bytes s ≡ day_lines sizes 1 entries.now all.now.answers.now (lent_from all.now)) }
{
    let mut out = String::new(heap);
    let mut rest = *all;
    for (i, entry) in entries.iter().enumerate() {
        tell_entry(&mut out, sizes, i + 1, *entry, &rest)?;
        rest = rest.behind(sizes.legs, *entry);
    }
    Ok(out)
}
