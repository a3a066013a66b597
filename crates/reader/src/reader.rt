// Where a reader begins, where it stands, and how it ends.
ghost use Rattle.std.specs.Prelude.{◌≡◌};
ghost use Rattle.text_rules.specs.Judging.{finished};
ghost use Rattle.reader.specs.Taking.{state_of, fresh};

use crate::under_way::Reader;
use records::Refusal;
use text_rules::{Header, Progress, Room};

impl<'a> Reader<'a> {
    // A reader at the first byte of a text, for tables of the given room.
    pub fn new(text: &'a [u8], room: Room) -> Reader<'a>
        ensures { state_of result ≡ fresh text.now room }
    {
        Reader {
            text,
            place: 0,
            lines: 0,
            progress: Progress::default(),
            room,
        }
    }

    // The place of the next line's first byte.
    pub fn place(&self) -> usize
        ensures { result ≡ self.now.place }
    {
        self.place
    }

    // What the problem line announced, where the lines taken so far are a whole text.
    pub(crate) fn finish(&self) -> Result<Header, Refusal>
        ensures { result ≡ finished self.now.progress self.now.lines }
    {
        self.progress.finish(self.lines)
    }
}
