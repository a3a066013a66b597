// One call from its text.
ghost use Rattle.std.specs.Prelude.{◌≡◌, ℕ, ◌^◌, ◌<◌, ◌++◌, List, ◌∷◌, ℤ, IfOk, MatchOption, Some, FitsSigned};
ghost use Rattle.std.specs.Fmt.{decimal, signed_decimal};
ghost use Rattle.std.specs.Int.{w32};
ghost use Rattle.planning_rules.specs.declared.lengths.Lengths.{Lengths as LengthsOf};
ghost use Rattle.tally.specs.Texts.{call_text};
ghost use Rattle.tally.specs.declared.call.Call.TheVariants.{Report};
ghost use Rattle.call_lines.specs.Calls.{Begins, InTypes, NoCall, lengths_text, long, numbers_of, word_of};

use planning_rules::Lengths;
use std::alloc::{AllocError, Global};
use std::str;
use tally::Call;

// The number that a text writes. It can be spelled in more ways than one.
fn number(text: &str) -> Option<usize>
    ensures { (n : ℕ) → n < 2 ^ 64 → text.now ≡ decimal n → result ≡ Some n }
{
    text.parse().ok()
}

// The number before a text's first space, and what stands behind that.
fn first_number(text: &str) -> Option<(usize, &str)>
    ensures { (n : ℕ) (rest : List ℕ) → n < 2 ^ 64 → text.now ≡ decimal n ++ (32 ∷ rest) → Begins result n rest }
{
    let (digits, rest) = text.split_once(' ')?;
    Some((number(digits)?, rest))
}

// The lengths of a planning.
fn lengths_of(numbers: &str) -> Option<Lengths>
    ensures { (l : LengthsOf) → long l → numbers.now ≡ lengths_text l → result ≡ Some l }
{
    let (prices, rest) = first_number(numbers)?;
    let (cut, rest) = first_number(rest)?;
    let (station_entries, rest) = first_number(rest)?;
    let leg_entries = number(rest)?;
    Some(Lengths {
        prices,
        cut,
        station_entries,
        leg_entries,
    })
}

// A balance that a text writes.
fn balance(text: &str) -> Option<i32>
    ensures { (z : ℤ) → FitsSigned w32 z → text.now ≡ signed_decimal z → result ≡ Some z }
{
    text.parse().ok()
}

// The station and the balance of a report.
fn report_of(numbers: &str) -> Option<Call>
    ensures { (s : ℕ) (b : ℤ) → s < 2 ^ 64 → FitsSigned w32 b → numbers.now ≡ decimal s ++ (32 ∷ signed_decimal b) → result ≡ Some (Report s b) }
{
    let (station, rest) = first_number(numbers)?;
    let balance = balance(rest)?;
    Some(Call::Report { station, balance })
}

// The call that a word and numbers tell, in one spelling or another.
fn call_by(word: &str, numbers: &str) -> Option<Call>
    ensures { (call : Call) → InTypes call → word.now ≡ word_of call → numbers.now ≡ numbers_of call → result ≡ Some call }
{
    match word {
        "report" => report_of(numbers),
        "close" => number(numbers).map(|leg| Call::Close { leg }),
        "reopen" => number(numbers).map(|leg| Call::Reopen { leg }),
        "plan" => lengths_of(numbers).map(|lengths| Call::Plan { lengths }),
        "stations" => number(numbers).map(|length| Call::ListStations { length }),
        "runs" => number(numbers).map(|length| Call::ListRuns { length }),
        "read" => number(numbers).map(|leg| Call::Read { leg }),
        _ => None,
    }
}

// The call that a text tells, in one spelling or another.
fn guessed(text: &str) -> Option<Call>
    ensures { (call : Call) → InTypes call → text.now ≡ call_text call → result ≡ Some call }
{
    let (word, numbers) = text.split_once(' ')?;
    call_by(word, numbers)
}

// The call whose text a line is, if there is one.
pub fn call_of(heap: Global, line: &[u8]) -> Result<Option<Call>, AllocError>
    ensures { IfOk result (λ found. MatchOption found (NoCall line.now) (λ call. call_text call ≡ line.now)) }
{
    let Ok(text) = str::from_utf8(line) else {
        return Ok(None);
    };
    let Some(call) = guessed(text) else {
        return Ok(None);
    };
    let spelling = format!(in heap; "{call}")?;
    Ok((spelling.as_bytes() == line).then_some(call))
}
