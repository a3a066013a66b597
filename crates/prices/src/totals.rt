//! The totals of labels.
ghost use Rattle.std.specs.Prelude.{◌≡◌, length};
ghost use Rattle.prices.specs.Claims.{total_at};
ghost use Rattle.prices.specs.Priced.{Writes, price_in};

use costs::Cents;
use search::Label;

// The total of a label, 0 where no walk arrives: none such is there where a search from everywhere
// has settled.
#[inline(always)]
fn price_of(label: Label<Cents>) -> i64
    ensures { result ≡ price_in label }
{
    let Some(arrival) = label.arrival else {
        return 0;
    };
    arrival.total.0
}

// The total in the label of a station, 0 where it is missing.
#[inline(always)]
pub(crate) fn total_at(labels: &[Label<Cents>], station: usize) -> i64
    ensures { result ≡ total_at labels.now station }
{
    let Some(label) = labels.get(station) else {
        return 0;
    };
    price_of(*label)
}

// Writes the total in the label of each station, as many as there are prices.
pub(crate) fn write(labels: &[Label<Cents>], prices: &mut [i64])
    ensures { Writes (length prices.old) labels.now prices.old prices.new }
{
    // with `iter_mut().zip(labels)` nothing is known of what is written
    for (station, price) in prices.iter_mut().enumerate() {
        *price = total_at(labels, station);
    }
}
