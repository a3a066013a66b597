// Taking one line after another.
ghost use Rattle.std.specs.Prelude.{◌≡◌, ℕ, ◌+◌, ◌<◌, ◌≤◌, [], ◌++◌, length, take, drop};
ghost use Rattle.text_rules.specs.Rows.{first_row, behind};
ghost use Rattle.lines.specs.Scan.{scan};
ghost use Rattle.reader.specs.Taking.{TookLine, state_of, next_place, row_at};

use crate::guard::Guard;
use crate::under_way::Reader;
use lines::Line;
use records::{MOST_TEXT, Refusal};

// The number of bytes before the first line end, of a network text or of any other.
pub fn row_length(s: &[u8]) -> usize
    ensures row { first_row s.now ≡ take result s.now }
    ensures within { result ≤ length s.now }
    ensures rest { behind s.now ≡ drop (result + 1) s.now }
{
    s.iter().position(|b| *b == b'\n').unwrap_or(s.len())
}

// What the line at `place` spells, if it has a form, and where the next line begins.
fn line_at(text: &[u8], place: usize) -> (Option<Line>, usize)
    requires { place < length text.now }
    ensures line { result.0 ≡ scan (row_at text.now place) }
    ensures next { result.1 ≡ next_place text.now place }
{
    let rest = &text[place..];
    let row = row_length(rest);
    (Line::scan(&rest[0..row]), text.len().min(place + row + 1))
}

impl Reader<'_> {
    // The next line, if there is one. A line that is refused leaves the reader at its first byte.
    pub fn take_line(&mut self) -> Result<Option<Line>, Refusal>
        ensures { TookLine result (state_of self.old) (state_of self.new) }
    {
        let text = self.text;
        if text.len() > MOST_TEXT {
            return Err(Refusal::TextTooLong);
        }
        if self.place >= text.len() {
            return Ok(None);
        }
        let number = self.lines + 1;
        let (line, next) = line_at(text, self.place);
        let mut guard = Guard::moved(&mut self.place, next);
        let line = line.ok_or(Refusal::LineOutOfForm { line: number })?;
        self.progress = self.progress.judge(self.room, number, line)?;
        self.lines = number;
        guard.accept();
        Ok(Some(line))
    }
}
