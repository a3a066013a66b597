// Every byte in one place of a text. The runtime, a name and a text are arguments by themselves, here and below: each case has others.
use crate::cases::Frame;
use crate::print::Answered;
use reader::read;
use records::{Leg, Refusal, Station};
use std::alloc::{AllocError, Global};
use std::io;
use text_rules::Header;

// What a reading answers.
type Answer = Result<Header, Refusal>;

// Reads the text with a byte in the frame.
fn answer_with(heap: Global, frame: &Frame, byte: u8) -> Result<Answer, AllocError> {
    let pieces = [frame.before.as_bytes(), &[byte], frame.behind.as_bytes()];
    let text = pieces.concat(heap)?;
    let mut legs = [Leg::default(); 2];
    let mut stations = [Station::default(); 2];
    Ok(read(text.as_slice(), &mut legs, &mut stations))
}

// What is answered with each byte in the frame.
fn answers(heap: Global, frame: &Frame) -> Result<Vec<Answer>, AllocError> {
    (0..=255u8)
        .map(|byte| answer_with(heap, frame, byte))
        .try_collect(heap)
}

// The number of the refusal, where the text is refused: answers are counted by it, whatever their places.
fn number_of(answer: Answer) -> Option<u8> {
    answer.err().map(|refusal| refusal.number())
}

// How many answers are refusals of a number, or accept.
fn count(answers: &[Answer], number: Option<u8>) -> usize {
    answers.iter().filter(|a| number_of(**a) == number).count()
}

// Prints how many bytes have each answer: accepted, and each number that a refusal of a text may have.
fn tally(rt: &HostRuntime, name: &str, answers: &[Answer]) -> io::Result<()> {
    let ok = count(answers, None);
    print!(rt; "{name}: ok {ok}, refused")?;
    for number in 1..=6u8 {
        let refused = count(answers, Some(number));
        print!(rt; " {refused}")?;
    }
    println!(rt; "")
}

// Counts the answers, and prints those that are another than that the form is wrong. The frame is made here, once for all calls.
fn list(
    rt: &HostRuntime,
    name: &str,
    before: &'static str,
    behind: &'static str,
) -> io::Result<()> {
    let answers = answers(rt.alloc(), &Frame::new(before, behind))?;
    tally(rt, name, answers.as_slice())?;
    for (byte, answer) in answers.iter().enumerate() {
        if !matches!(answer, Err(Refusal::LineOutOfForm { .. })) {
            println!(rt; "  {byte} {}", Answered(*answer))?;
        }
    }
    Ok(())
}

// Every byte as the first of a line.
pub(crate) fn first(rt: &HostRuntime) -> io::Result<()> {
    list(rt, "byte alone", "p min 1 0\n", "\n")?;
    list(rt, "byte before \" min 2 0\", first line", "", " min 2 0\n")?;
    list(
        rt,
        "byte before \" min 2 0\", second line",
        "p min 1 0\n",
        " min 2 0\n",
    )?;
    list(rt, "byte before \" 1 5\"", "p min 1 0\n", " 1 5\n")?;
    list(rt, "byte before \" 2 5\"", "p min 1 0\n", " 2 5\n")?;
    list(
        rt,
        "byte before \" 1 2 0 5 7\", one arc announced",
        "p min 2 1\n",
        " 1 2 0 5 7\n",
    )?;
    list(
        rt,
        "byte before \" 1 2 0 5 7\", no arc announced",
        "p min 2 0\n",
        " 1 2 0 5 7\n",
    )
}

// Every byte further on.
pub(crate) fn later(rt: &HostRuntime) -> io::Result<()> {
    list(rt, "byte behind \"c\"", "p min 1 0\nc", "")?;
    list(rt, "byte behind \"n 1 \"", "p min 1 0\nn 1 ", "")?;
    list(rt, "byte behind \"n 1 5\"", "p min 1 0\nn 1 5", "")?;
    list(rt, "byte between \"n 1\" and \"5\"", "p min 1 0\nn 1", "5")?;
    list(
        rt,
        "byte behind \"p min 1 0\", then \" 7\"",
        "p min 1 0",
        " 7\n",
    )?;
    let answers = answers(rt.alloc(), &Frame::new("p min 1 0\nc ", ""))?;
    tally(rt, "byte behind \"c \"", answers.as_slice())
}
