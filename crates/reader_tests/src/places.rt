// Taking one line after another, and the reader's place after each.
use crate::cases::SMALL;
use crate::texts;
use lines::Line;
use reader::Reader;
use records::{MOST_TEXT, Refusal};
use std::{fmt, io};

// What taking a line answered, as it is printed: in words of this test, since a line has no `Display`.
#[derive(Clone, Copy)]
struct Taken(Result<Option<Line>, Refusal>);

impl fmt::Display for Taken {
    fn fmt<W: fmt::Write>(&self, f: &mut fmt::Formatter<W>) -> fmt::Result {
        match self.0 {
            Ok(Some(Line::Comment)) => f.write_str("comment"),
            Ok(Some(Line::Problem { nodes, arcs })) => write!(f, "problem {nodes} {arcs}"),
            Ok(Some(Line::Node { id, flow })) => write!(f, "node {id} {flow}"),
            Ok(
                Some(
                    Line::Arc {
                        source,
                        target,
                        low,
                        capacity,
                        cost,
                    },
                ),
            ) => write!(f, "arc {source} {target} {low} {capacity} {cost}"),
            Ok(None) => f.write_str("end"),
            Err(refusal) => write!(f, "{refusal}"),
        }
    }
}

// Takes a line, and prints the answer and the place.
fn take(rt: &HostRuntime, reader: &mut Reader) -> io::Result<()> {
    let answer = reader.take_line();
    let place = reader.place();
    println!(rt; "  {}, place {place}", Taken(answer))
}

// Takes so many lines. Calls are counted: the last ones are to find no line.
fn follow(rt: &HostRuntime, text: &[u8], calls: usize) -> io::Result<()> {
    let mut reader = Reader::new(text, SMALL);
    let place = reader.place();
    println!(rt; "  new, place {place}")?;
    for _ in 0..calls {
        take(rt, &mut reader)?;
    }
    Ok(())
}

// Texts, and how many lines are asked for.
const TEXTS: [(&str, usize); 10] = [
    ("c\np min 3 1\nn 2 -7\na 1 2 0 5 7", 6),
    ("p min 1 0\nc any\n", 3),
    ("", 2),
    ("\n", 2),
    ("p min 2 1\nx\na 1 2 0 5 7\n", 3),
    ("p min 2 0\np min 2 0\n", 3),
    ("p min 2 1\nn 1 -500\nn 3 5\n", 4),
    ("c\np min 9 0\n", 3),
    ("p min 2 1\na 1 2 0 5 7\na 2 1 0 5 7\n", 4),
    ("p min 2 0\nn 1 5 ", 3),
];

// Every text.
pub(crate) fn all(rt: &HostRuntime) -> io::Result<()> {
    for &(text, calls) in &TEXTS {
        println!(rt; "{text:?}")?;
        follow(rt, text.as_bytes(), calls)?;
    }
    Ok(())
}

// A text that is too long is refused at its first line.
pub(crate) fn too_long(rt: &HostRuntime) -> io::Result<()> {
    let text = texts::padded(rt.alloc(), "p min 1 0\n", MOST_TEXT + 1)?;
    println!(rt; "a text of 65537 bytes")?;
    follow(rt, text.as_str().as_bytes(), 2)
}
