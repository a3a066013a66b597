// Prints labels, links, prices and what calls answer, in words of these tests.
use records::Refusal;
use search::{Label, Links, Outcome};
use std::fmt::Display;
use std::io;

// How a search ended.
pub(crate) fn outcome(
    rt: &impl Print,
    name: &str,
    answer: Result<Outcome, Refusal>,
) -> io::Result<()> {
    match answer {
        Ok(outcome) => println!(rt; "{name}: {outcome}"),
        Err(refusal) => println!(rt; "{name}: {refusal}"),
    }
}

// Whether prices were written, and the slice.
pub(crate) fn prices(
    rt: &impl Print,
    name: &str,
    answer: Result<Outcome, Refusal>,
    prices: &[i64],
) -> io::Result<()> {
    match answer {
        Ok(Outcome::Settled) => println!(rt; "{name}: written")?,
        Ok(Outcome::RoundTrip) => println!(rt; "{name}: not written")?,
        Err(refusal) => println!(rt; "{name}: {refusal}")?,
    }
    println!(rt; "  {prices:?}")
}

// Labels, a line for each.
pub(crate) fn labels<C: Copy + Display>(rt: &impl Print, labels: &[Label<C>]) -> io::Result<()> {
    for (station, label) in labels.iter().enumerate() {
        match label.arrival {
            None => println!(rt; "  {station}: unreached")?,
            Some(arrival) => println!(rt; "  {station}: {arrival}")?,
        }
    }
    Ok(())
}

// Links, each as the one forth and the one back; 0 where there is none.
pub(crate) fn links(rt: &impl Print, links: &[Links]) -> io::Result<()> {
    for link in links {
        let forth = link.forth.unwrap_or(0);
        let back = link.back.unwrap_or(0);
        println!(rt; "  {forth} {back}")?;
    }
    Ok(())
}
