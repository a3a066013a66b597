// A program that answers one text: it reads the text, answers it, and writes the answer.
#![tactic(auto)]

ghost use Rattle.std.specs.Prelude.{◌≡◌, ℕ, List, IfOk, OnOk, IfSome, take, string_bytes};
ghost use Rattle.text_program.specs.Told.{Told};

use records::MOST_TEXT;
use std::alloc::{AllocError, Global};
use std::io;
use std::io::{Read, Write};

// One byte more than the longest text is enough to know that a text is too long. Cast: no `From` goes from usize to u64.
const MOST_READ: u64 = MOST_TEXT as u64 + 1;

// All bytes of a reader.
pub fn read_all<R: Read + Drop>(heap: Global, mut input: R) -> io::Result<Vec<u8>>
    ensures { IfOk result (λ v. IfSome (R.remaining input) (λ bytes. v.items ≡ bytes)) }
{
    let mut all = Vec::new(heap);
    input.read_to_end(&mut all)?;
    Ok(all)
}

// The first bytes of a reader, as many as a text may have and one more.
pub fn read_text<R: Read + Drop>(heap: Global, input: R) -> io::Result<Vec<u8>>
    ensures { IfOk result (λ v. IfSome (R.remaining input) (λ bytes. v.items ≡ take 65537 bytes)) }
{
    read_all(heap, input.take(MOST_READ))
}

// How a text is answered. A trait and no closure: what is promised cites a ghost member, which a closure has not.
pub trait TextAnswer {
    // a text, and bytes that may answer it
    ghost answers: { List ℕ → List ℕ → Type 0 };

    fn answer(&self, heap: Global, text: &[u8]) -> Result<String, AllocError>
        ensures { IfOk result (λ s. answers text.now (string_bytes s)) };
}

// Reads a text from the input, answers it, and writes the answer to the output.
pub fn answer_input<A: TextAnswer, R: Read + Drop, W: Write>(
    heap: Global,
    input: R,
    output: &mut W,
    way: &A,
) -> io::Result<()>
    ensures { OnOk result (Told (R.remaining input) A.answers (W.contents output.old) (W.contents output.new)) }
{
    let text = read_text(heap, input)?;
    let told = way.answer(heap, text.as_slice())?;
    output.write_all(told.as_bytes())
}
