// Standing plans: amounts that are missing count as 0, amounts beyond the last leg do not count.
use crate::lent::Sizes;
use crate::print;
use samples::worked::{STATIONS, T, U};
use std::io;

// Plans from one standing plan, where the ways cost the same and where they do not.
fn from(rt: &HostRuntime, name: &str, standing: &[u16]) -> io::Result<()> {
    println!(rt; "standing {name}")?;
    print::on_table(rt, "T", &T, &STATIONS, standing, Sizes::THREE)?;
    print::on_table(rt, "U", &U, &STATIONS, standing, Sizes::THREE)
}

// Standing plans of several lengths, up to the highest amounts.
pub(crate) fn all(rt: &HostRuntime) -> io::Result<()> {
    from(rt, "2 2", &[2, 2])?;
    from(rt, "3 3 1", &[3, 3, 1])?;
    from(rt, "3 3 1 and 9 beyond", &[3, 3, 1, 9, 65535])?;
    from(rt, "0 0 65535", &[0, 0, 65535])?;
    from(rt, "65535 on one leg", &[65535])?;
    from(rt, "65535 on every leg", &[65535, 65535, 65535])
}
