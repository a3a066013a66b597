// Lists that keep their order: who stays on a list keeps its place among the others, and who comes
// new goes to the end.
#![tactic(auto)]

ghost use Rattle.std.specs.Prelude.{◌≡◌, [], ◌∷◌, ◌++◌, take};
ghost use Rattle.std.specs.List.{range_with_len};
ghost use Rattle.listing.specs.Example.{ThreeLists};
ghost use Rattle.listing.specs.Lists.{Determined, InTwoParts, KeepsOrder};
ghost use Rattle.listing.specs.Listings.{Listing, Marked, Writes};

pub mod kept;

pub use kept::Kept;
use network::Belongs;
use records::Refusal;

// A list that is being written: the first `long` entries of `out`, which is lent, and so a slice. Marked are those on it.
#[derive(Drop)]
struct Writing<'a, B> {
    who: &'a B,
    count: usize,
    long: usize,
    marks: &'a mut [bool],
    out: &'a mut [usize],
    ghost marked: { Marked count long marks.now out.now },
}

impl<'a, B: Belongs> Writing<'a, B> {
    ghost use Rattle.listing.specs.Writings.{Enters};

    // Puts a number at the end of the list, if it is below the count, belongs and is not on the list yet.
    fn enter(&mut self, number: usize)
        ensures { Enters (B.Belongs.belongs self.old.who.now) (number ∷ []) self.old self.new }
    {
        if number >= self.count || self.marks[number] || !self.who.belongs(number) {
            return;
        }
        let marks = &mut *self.marks;
        let out = &mut *self.out;
        out[self.long] = number;
        marks[number] = true;
        self.long += 1;
    }

    // Enters the numbers of an earlier list, in their order, and then all below the count, rising.
    fn enter_all(&mut self, earlier: &[usize])
        ensures { Enters (B.Belongs.belongs self.old.who.now) (earlier.now ++ range_with_len 0 self.old.count) self.old self.new }
    {
        for number in earlier.iter().copied().chain(0..self.count) {
            self.enter(number);
        }
    }
}

// Writes the list of those among the numbers below `count` that belong, following an earlier list, and answers
// how long it is. Refused where a slice, or the room for the next earlier list, is shorter than the count.
fn write<B: Belongs>(
    who: &B,
    count: usize,
    earlier: &[usize],
    room: usize,
    marks: &mut [bool],
    out: &mut [usize],
) -> Result<usize, Refusal>
    ensures { Writes (B.Belongs.belongs who.now) count room result earlier.now marks.old marks.new out.old out.new }
{
    if out.len() < count || room < count || marks.len() < count {
        return Err(Refusal::SliceTooShort);
    }
    marks[..count].fill(false);
    let mut writing = Writing {
        who,
        count,
        long: 0,
        marks: &mut *marks,
        out: &mut *out,
    };
    writing.enter_all(earlier);
    Ok(writing.long)
}

// Writes the list of those among the numbers below `count` that belong, and answers how long it is.
// The earlier list stands in the first `long` entries of `kept`: those of it that still belong come
// first, in their earlier order, then the others by rising number. `kept` gets the new list in place
// of the earlier one. The marks are to work in. Refused where a slice is shorter than the count.
// What is lent stays a slice with a length beside it; `Kept` is a list with memory of its own. `who`, `count`, `marks` and `out`
// are no struct: nobody holds the four together, a board has the marks and its caller the slice.
pub fn list<B: Belongs>(
    who: &B,
    count: usize,
    long: usize,
    kept: &mut [usize],
    marks: &mut [bool],
    out: &mut [usize],
) -> Result<usize, Refusal>
    ensures { Listing (B.Belongs.belongs who.now) count (take long kept.old) result kept.old kept.new marks.old marks.new out.old out.new }
{
    let room = kept.len();
    let all = write(who, count, &kept[..long.min(room)], room, marks, out)?;
    kept[..all].copy_from_slice(&out[..all]);
    Ok(all)
}

// A list names each number below the count that belongs, and each once; who was on the earlier list
// stands before every newcomer and in the same order as there, and newcomers stand by rising number.
// The earlier list names nobody twice: the first has nobody on it, and each list names nobody twice.
pub fn lists_keep_their_order()
    ensures { KeepsOrder }
{}

// No other list does, where the earlier one names nobody twice.
pub fn order_determines_a_list()
    ensures { Determined }
{}

// Where the earlier list names nobody twice, it is those of it that still belong, then those that belong and were not on it.
pub fn lists_have_two_parts()
    ensures { InTwoParts }
{}

// Of four numbers 0 and 2 belong: the list is 0, 2. Then 0 does not: 2 is left. Then it does again: now the list is 2, 0.
pub fn who_comes_back_goes_to_the_end()
    ensures { ThreeLists }
{}
