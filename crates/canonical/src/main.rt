// canonical: reads one network text from standard input and prints the network that it states as its canonical text.
#![tactic(auto)]

ghost use Rattle.answers.specs.Answered.{Prints};
ghost use Rattle.answers.specs.Printed.{PrintsStated};

use answers::answer_text;
use std::alloc::{AllocError, Global};
use std::io;
use text_program::{TextAnswer, answer_input};

// The canonical text of the network that a text states, or its refusal.
// A struct for this program, and no impl for every `NetworkAnswer`: so it prints what `answer_text` promises, in the same word.
struct Canonical;

impl TextAnswer for Canonical {
    ghost answers = { Prints PrintsStated };

    fn answer(&self, heap: Global, text: &[u8]) -> Result<String, AllocError> {
        answer_text(heap, text)
    }
}

fn main(rt: HostRuntime) -> io::Result<()> {
    answer_input(rt.alloc(), rt.stdin(), &mut io::writer(&rt), &Canonical)
}
