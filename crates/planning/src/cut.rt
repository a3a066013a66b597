// The cut that a search shows when bikes are over and no station that lacks them is reached.
ghost use Rattle.std.specs.Prelude.{◌≤◌, length};
ghost use Rattle.planning.specs.Reached.{WritesCut};

use costs::CentsThenBikes;
use search::Label;

// Writes the reached stations into the cut, by rising number, and says how many they are.
pub(crate) fn write_cut(labels: &[Label<CentsThenBikes>], cut: &mut [usize]) -> usize
    requires { length labels.now ≤ length cut.old }
    ensures { WritesCut (length labels.now) labels.now result cut.old cut.new }
{
    let mut count = 0;
    // by index: of what a zip of `iter_mut` writes only the length is known after it
    for (station, label) in labels.iter().enumerate() {
        if label.arrival.is_some() {
            cut[count] = station;
            count += 1;
        }
    }
    count
}
