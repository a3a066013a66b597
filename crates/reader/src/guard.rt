// A guard on a reader's place: it puts the place back unless the line is accepted.
ghost use Rattle.std.specs.Prelude.{◌≡◌, Some, None};
ghost use Rattle.std.specs.Option.{unwrap_or};

use std::mem;

// The place, and what is put back.
pub(crate) struct Guard<'a> {
    place: &'a mut usize,
    first: Option<usize>,
}

impl<'a> Guard<'a> {
    // A guard on `place`, which goes on to `next` for the time being.
    pub(crate) fn moved(place: &'a mut usize, next: usize) -> Guard<'a>
        ensures { (result.first ≡ Some place.old) × ((result.place.now ≡ next) × (result.place.ghost_name ≡ place.entry.ghost_name)) }
    {
        let first = Some(mem::replace(place, next));
        Guard { place, first }
    }

    // The line is accepted: the place stays where it is.
    pub(crate) fn accept(&mut self)
        ensures { (self.new.first ≡ None) × ((self.new.place.now ≡ self.old.place.now) × (self.new.place.ghost_name ≡ self.old.place.ghost_name)) }
    {
        self.first = None;
    }
}

impl Drop for Guard<'_> {
    fn drop(self)
        ensures { self.exit.0.now ≡ unwrap_or self.entry.first self.entry.place.now }
    {
        if let Some(first) = self.first {
            *self.place = first;
        }
        let Guard { place: _, first: _ } = self;
    }
}
