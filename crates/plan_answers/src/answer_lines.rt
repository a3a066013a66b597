// The lines that `vanplan` prints. Each writer is handed what its own line tells.
ghost use Rattle.std.specs.Prelude.{◌≡◌, ◌+◌, ◌<◌, ◌≤◌, ◌∷◌, ◌++◌, IfOk, IsUtf8, OnOk, decimal, drop, length, string_bytes};
ghost use Rattle.planning_rules.specs.Answers.{the_plan};
ghost use Rattle.plan_answers.specs.Printed.{cents_line, leg_line, leg_lines};

use network::Network;
use records::Leg;
use std::alloc::{AllocError, Global};
use steps::amount_at;
use text_rules::id_of;

// The longest line of a leg: `f`, three numbers of up to five digits with a space before each, and the byte that ends a line.
const LONGEST: usize = 20;

// Writes a number and a space before it, so that they end where it is said, and answers where they begin.
fn put_number(line: &mut [u8; LONGEST], number: u64, end: usize) -> usize
    requires small { number < 100000 }
    requires room { 6 ≤ end }
    requires within { end ≤ 20 }
    ensures start { result + (1 + length (decimal number)) ≡ end }
    ensures near { end ≤ result + 6 }
    ensures written { drop result line.new ≡ 32 ∷ (decimal number ++ drop end line.old) }
{
    let digits = itoa::write_digits(number, line, end);
    line[digits - 1] = b' ';
    digits - 1
}

// Appends the line of a leg and its bikes. It is written from its end on, into a slice that may hold another line.
fn write_leg(
    out: &mut Vec<u8>,
    line: &mut [u8; LONGEST],
    leg: &Leg,
    bikes: u16,
) -> Result<(), AllocError>
    ensures appends { OnOk result (out.new.items ≡ out.old.items ++ leg_line leg.now bikes) }
    ensures text { IsUtf8 (leg_line leg.now bikes) }
{
    line[LONGEST - 1] = b'\n';
    let amount = put_number(line, u64::from(bikes), LONGEST - 1);
    let target = put_number(line, u64::from(id_of(leg.end)), amount);
    let source = put_number(line, u64::from(id_of(leg.start)), target);
    line[source - 1] = b'f';
    out.extend_from_slice(&line[source - 1..])
}

// Appends the line of each leg of a network, with its bikes. What is text stays text.
// Over numbers: a network is asked by number, and after a closure of `for_each` a proof knows nothing of what it wrote.
fn write_legs<N: Network>(out: &mut Vec<u8>, net: &N, amounts: &[u16]) -> Result<(), AllocError>
    ensures appends { OnOk result (out.new.items ≡ out.old.items
        ++ leg_lines (N.Network.meaning net.now) (the_plan (N.Network.meaning net.now) amounts.now)) }
    ensures text { OnOk result (IsUtf8 out.old.items → IsUtf8 out.new.items) }
{
    let mut line = [0; LONGEST];
    for number in 0..net.legs() {
        let Some(leg) = net.leg(number) else {
            return Ok(());
        };
        write_leg(out, &mut line, &leg, amount_at(amounts, number))?;
    }
    Ok(())
}

// The lines of a plan, given what it costs. Amounts that are missing count as 0, and those beyond the legs do not count.
pub fn plan_text<N: Network>(
    heap: Global,
    net: &N,
    cents: u64,
    amounts: &[u16],
) -> Result<String, AllocError>
    ensures { IfOk result (λ s. string_bytes s ≡ cents_line cents ++ leg_lines (N.Network.meaning net.now) (the_plan (N.Network.meaning net.now) amounts.now)) }
{
    let mut first = String::new(heap);
    writeln!(first, "s {cents}")?;
    let mut lines = first.into_bytes();
    write_legs(&mut lines, net, amounts)?;
    Ok(String::from_utf8(lines).unwrap())
}
