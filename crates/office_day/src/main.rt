// office_day: makes the calls of a day on a network and prints what each of them answers.
#![tactic(auto)]

mod order;

use crate::order::{Base, Order};
use day::{layered_day, text_day};
use promenade::Promenade;
use std::fs::File;
use std::process::ExitCode;
use std::{env, fs, io};
use text_program::{read_all, read_text};

// How the program is called.
const USAGE: &str = "usage: office_day PATH [LAYER [LAYER]] < CALLS
       office_day promenade STATIONS CAPACITY CHARGE [LAYER [LAYER]] < CALLS
where LAYER is `limit BIKES` or `yard CENTS`, and PATH leads to a network text";

// The status of a program that was called in a way that is none, or with a text that cannot be read.
const MISCALLED: u8 = 2;

// What is told of the calls of standard input on the network that a file's text states.
fn on_text(rt: &HostRuntime, file: File, order: &Order<'_>) -> io::Result<String> {
    let heap = rt.alloc();
    let text = read_text(heap, file)?;
    let input = read_all(heap, rt.stdin())?;
    let told = text_day(
        heap,
        text.as_slice(),
        order.first,
        order.second,
        input.as_slice(),
    )?;
    Ok(told)
}

// The same on a row of stations.
fn on_row(rt: &HostRuntime, row: Promenade, order: &Order<'_>) -> io::Result<String> {
    let heap = rt.alloc();
    let input = read_all(heap, rt.stdin())?;
    Ok(layered_day(heap, row, order.first, order.second, input.as_slice())?)
}

// Tells the day that is ordered.
fn tell(rt: &HostRuntime, order: &Order<'_>) -> io::Result<ExitCode> {
    let told = match order.base {
        Base::Promenade {
            stations,
            capacity,
            charge,
        } => on_row(rt, Promenade::new(stations, capacity, charge), order)?,
        Base::Text { path } => match fs::open(rt, path) {
            Ok(file) => on_text(rt, file, order)?,
            Err(e) => {
                eprintln!(rt; "office_day: {path}: {e}")?;
                return Ok(ExitCode::from(MISCALLED));
            }
        },
    };
    print!(rt; "{told}")?;
    Ok(ExitCode::SUCCESS)
}

fn main(rt: HostRuntime) -> io::Result<ExitCode> {
    let words: Vec<String> = env::args(&rt)?.collect(rt.alloc())?;
    match Order::of_words(words.as_slice()) {
        Some(order) => tell(&rt, &order),
        None => {
            eprintln!(rt; "{USAGE}")?;
            Ok(ExitCode::from(MISCALLED))
        }
    }
}
