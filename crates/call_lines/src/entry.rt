// The lines of a day, each a call or none.
ghost use Rattle.std.specs.Prelude.{◌≡◌, ◌<◌, ◌≤◌, IfOk, length};
ghost use Rattle.text_rules.specs.Rows.{behind, first_row};
ghost use Rattle.call_lines.specs.Entries.{Entered, Read, calls_of};

use crate::call_line::call_of;
use crate::sizes::Sizes;
use reader::row_length;
use std::alloc::{AllocError, Global};
use tally::Call;

// The call that a line tells, if it tells one: by a call's text, or by a word alone, where the slices are just long enough.
// Three tests and no match: of a pattern of so many bytes a proof has no equation.
pub fn entry_of(heap: Global, line: &[u8], sizes: Sizes) -> Result<Option<Call>, AllocError>
    ensures { IfOk result (Entered sizes line.now) }
{
    if line == b"plan".as_slice() {
        return Ok(Some(sizes.plan()));
    }
    if line == b"stations".as_slice() {
        let length = sizes.open_stations;
        return Ok(Some(Call::ListStations { length }));
    }
    if line == b"runs".as_slice() {
        let length = sizes.legs;
        return Ok(Some(Call::ListRuns { length }));
    }
    call_of(heap, line)
}

// The first line of an input, and what stands behind its end.
fn first_line(input: &[u8]) -> (&[u8], &[u8])
    requires { 1 ≤ length input.now }
    ensures line { result.0.now ≡ first_row input.now }
    ensures rest { result.1.now ≡ behind input.now }
    ensures shorter { length result.1.now < length input.now }
{
    let long = row_length(input);
    let next = input.len().min(long + 1);
    (&input[..long], &input[next..])
}

// What each line of an input tells.
pub fn entries_of(heap: Global, input: &[u8], sizes: Sizes) -> Result<Vec<Option<Call>>, AllocError>
    ensures { IfOk result (λ entries. Read sizes input.now entries.items) }
{
    let mut entries = Vec::new(heap);
    let mut rest = input;
    while !rest.is_empty() {
        let (line, more) = first_line(rest);
        entries.push(entry_of(heap, line, sizes)?)?;
        rest = more;
    }
    Ok(entries)
}

// The calls among entries.
pub fn calls_of(heap: Global, entries: &[Option<Call>]) -> Result<Vec<Call>, AllocError>
    ensures { IfOk result (λ calls. calls.items ≡ calls_of entries.now) }
{
    entries.iter().filter_map(|entry| *entry).collect(heap)
}
