// What is asked of slices in several crates and the library has no word for.
#![tactic(auto)]

ghost use Rattle.std.specs.Prelude.{◌≡◌, slice_set, take};

// The first entries of a slice, at most so many.
#[tactic(auto, using(std::proofs::lemmas::List::take_min))]
pub fn first<T>(slice: &[T], most: usize) -> &[T]
    ensures { result.now ≡ take most slice.now }
{
    &slice[..most.min(slice.len())]
}

// Writes an entry, where the slice has it. By index: of a write through `get_mut` only the length is known after it.
pub fn put<T: Copy>(slice: &mut [T], place: usize, value: T)
    ensures { slice.new ≡ slice_set slice.old place value }
{
    if place < slice.len() {
        slice[place] = value;
    }
}
