//! Stations in the order of their keys: a binary heap that knows where each station stands.
ghost use Rattle.prices.specs.Queues.{SameQueue};

// Stations that were taken out have this place and those after it, in the order in which they were.
const TAKEN: usize = 65536;

// No heap with fewer places has more levels.
const LEVELS: usize = 16;

/// A station with its key.
#[derive(Clone, Copy, PartialEq, Eq, Default, Debug)]
pub struct Keyed {
    pub key: i64,
    pub station: usize,
}

/// A queue in two lent slices, with as many entries as there are stations in either: a heap, in which no
/// key is greater than the two below it, and by station its place there.
#[derive(Drop)]
pub struct Queue<'a> {
    pub heap: &'a mut [Keyed],
    pub places: &'a mut [usize],
}

impl Queue<'_> {
    // The station at a place of the heap.
    #[inline(always)]
    fn at(&self, place: usize) -> Keyed {
        let Some(keyed) = self.heap.get(place) else {
            return Keyed { key: 0, station: 0 };
        };
        *keyed
    }

    // Puts a station at a place.
    #[inline(always)]
    pub(crate) fn put(&mut self, keyed: Keyed, place: usize)
        ensures { SameQueue self.old self.new }
    {
        if place < self.heap.len() && keyed.station < self.places.len() {
            self.heap[place] = keyed;
            self.places[keyed.station] = place;
        }
    }

    // Puts a station at a place, or as far above it as the keys above are greater.
    fn rise(&mut self, keyed: Keyed, from: usize)
        ensures { SameQueue self.old self.new }
    {
        let mut place = from;
        for _level in 0..LEVELS {
            if place == 0 {
                break;
            }
            let above = (place - 1) / 2;
            let parent = self.at(above);
            if parent.key <= keyed.key {
                break;
            }
            self.put(parent, place);
            place = above;
        }
        self.put(keyed, place);
    }

    // Of the places below a place, in a heap of so many stations, that of the least key.
    #[inline(always)]
    fn least_below(&self, place: usize, count: usize) -> Option<usize> {
        let left = place.wrapping_mul(2).wrapping_add(1);
        if left >= count {
            return None;
        }
        let right = left.wrapping_add(1);
        let is_right_less = right < count && self.at(right).key < self.at(left).key;
        Some(if is_right_less { right } else { left })
    }

    // Puts a station at a place of a heap of so many stations, or as far below it as the keys below are less.
    fn sink(&mut self, keyed: Keyed, from: usize, count: usize)
        ensures { SameQueue self.old self.new }
    {
        let mut place = from;
        for _level in 0..LEVELS {
            let Some(below) = self.least_below(place, count) else {
                break;
            };
            let child = self.at(below);
            if keyed.key <= child.key {
                break;
            }
            self.put(child, place);
            place = below;
        }
        self.put(keyed, place);
    }

    // Makes a heap of so many stations that were put at its places.
    pub(crate) fn arrange(&mut self, count: usize)
        ensures { SameQueue self.old self.new }
    {
        for place in (0..count / 2).rev() {
            self.sink(self.at(place), place, count);
        }
    }

    // Takes a station with the least key out of a heap of so many stations, one at least; so many were taken out before.
    pub(crate) fn take_least(&mut self, count: usize, taken: usize) -> usize
        ensures { SameQueue self.old self.new }
    {
        let least = self.at(0).station;
        let rest = count.saturating_sub(1);
        self.sink(self.at(rest), 0, rest);
        if least < self.places.len() {
            self.places[least] = TAKEN.wrapping_add(taken);
        }
        least
    }

    // Gives a station a lesser key, and says whether it has it now: not if it was taken out.
    #[inline(always)]
    pub(crate) fn lower(&mut self, keyed: Keyed) -> bool
        ensures { SameQueue self.old self.new }
    {
        if keyed.station >= self.places.len() {
            return false;
        }
        let place = self.places[keyed.station];
        if place >= TAKEN {
            return false;
        }
        self.rise(keyed, place);
        true
    }
}
