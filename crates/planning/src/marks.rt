// The stations where a search starts.
ghost use Rattle.planning.specs.States.{Marking};

use crate::draft::Draft;

// Marks the stations that have bikes over.
pub(crate) fn mark_over(draft: &Draft<'_>, marks: &mut [bool])
    ensures { Marking draft.now.left.now marks.old marks.new }
{
    for (station, mark) in marks.iter_mut().enumerate() {
        *mark = draft.left_at(station) > 0;
    }
}
