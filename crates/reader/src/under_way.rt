// A text that is being read line by line.
ghost use Rattle.std.specs.Prelude.{◌≤◌, length};

use text_rules::{Progress, Room};

// The text, the place of the next line's first byte, how many lines were taken and what they settled,
// and the room of the tables that the text is read into. The whole text and a place in it, as the place is what a reader answers.
#[derive(Drop)]
pub struct Reader<'a> {
    pub(crate) text: &'a [u8],
    pub(crate) place: usize,
    pub(crate) lines: usize,
    pub(crate) progress: Progress,
    pub(crate) room: Room,
    ghost inside: { place ≤ length text.now },
    ghost counted: { lines ≤ place },
}
