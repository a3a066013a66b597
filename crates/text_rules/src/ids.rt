// How a text names stations.
ghost use Rattle.std.specs.Prelude.{◌≡◌, ◌+◌};

// The ID of a station, by its number. IDs count from 1.
pub fn id_of(station: u16) -> u32
    ensures { result ≡ station + 1 }
{
    u32::from(station) + 1
}
