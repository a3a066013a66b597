// Taking a line apart, from its first byte to its last.
ghost use Rattle.std.specs.Prelude.{◌≡◌, ℕ, ◌+◌, ◌-◌, ◌*◌, ◌<◌, ◌≤◌, true, false, length, Some, None, MatchOption, IfSome};
ghost use Rattle.lines.specs.Grammar.{Spelled};
ghost use Rattle.lines.specs.Scan.{is_digit, Stops, BeginsWith, Parsed, numeral, field, signed, flow, ended, comment, problem, node, arc, scan};

use crate::line::Line;

// The worth of a digit.
fn digit(b: u8) -> Option<u8>
    ensures { MatchOption result (is_digit b ≡ false) (λ d. (is_digit b ≡ true) × (d ≡ b - 48) × (d ≤ 9)) }
{
    match b {
        b'0'..=b'9' => Some(b - b'0'),
        _ => None,
    }
}

// The digit at the front, and what follows it.
fn first_digit(s: &[u8]) -> Option<(u8, &[u8])>
    ensures { MatchOption result (Stops s.now) (λ p. BeginsWith s.now p.0 p.1.now) }
{
    let (b, rest) = s.split_first()?;
    Some((digit(*b)?, rest))
}

// A number of one to nine digits at the front, and what follows it.
// A fold in a closure has no bound for the number that it makes, so a loop takes the further digits.
fn numeral(s: &[u8]) -> Option<(u32, &[u8])>
    ensures parsed { Parsed result (numeral s.now) }
    ensures small { IfSome result (λ p. p.0 < 1000000000) }
{
    let (first, mut rest) = first_digit(s)?;
    let mut value = u32::from(first);
    for _taken in 1..9u8 {
        let Some((digit, behind)) = first_digit(rest) else {
            break;
        };
        value = value * 10 + u32::from(digit);
        rest = behind;
    }
    Some((value, rest))
}

// A space and then a numeral, and what follows it.
fn field(s: &[u8]) -> Option<(u32, &[u8])>
    ensures parsed { Parsed result (field s.now) }
    ensures small { IfSome result (λ p. p.0 < 1000000000) }
{
    numeral(s.strip_prefix(b" ")?)
}

// A numeral, with or without a minus sign before it, and what follows it.
fn signed(s: &[u8]) -> Option<(i32, &[u8])>
    ensures { Parsed result (signed s.now) }
{
    match s.strip_prefix(b"-") {
        Some(digits) => numeral(digits).map(|(n, rest)| (-(n as i32), rest)),
        None => numeral(s).map(|(n, rest)| (n as i32, rest)),
    }
}

// A space and then a signed numeral, and what follows it.
fn flow(s: &[u8]) -> Option<(i32, &[u8])>
    ensures { Parsed result (flow s.now) }
{
    signed(s.strip_prefix(b" ")?)
}

// The line, where nothing follows.
fn ended(s: &[u8], line: Line) -> Option<Line>
    ensures { result ≡ ended s.now line }
{
    s.is_empty().then_some(line)
}

// What follows a `c`.
fn comment(s: &[u8]) -> Option<Line>
    ensures { result ≡ comment s.now }
{
    s.first()
        .is_none_or(|b| *b == b' ')
        .then_some(Line::Comment)
}

// What follows a `p`.
fn problem(s: &[u8]) -> Option<Line>
    ensures { result ≡ problem s.now }
{
    let s = s.strip_prefix(b" min")?;
    let (nodes, s) = field(s)?;
    let (arcs, s) = field(s)?;
    ended(s, Line::Problem { nodes, arcs })
}

// What follows an `n`.
fn node(s: &[u8]) -> Option<Line>
    ensures { result ≡ node s.now }
{
    let (id, s) = field(s)?;
    let (flow, s) = flow(s)?;
    ended(s, Line::Node { id, flow })
}

// What follows an `a`.
fn arc(s: &[u8]) -> Option<Line>
    ensures { result ≡ arc s.now }
{
    let (source, s) = field(s)?;
    let (target, s) = field(s)?;
    let (low, s) = field(s)?;
    let (capacity, s) = field(s)?;
    let (cost, s) = field(s)?;
    ended(
        s,
        Line::Arc {
            source,
            target,
            low,
            capacity,
            cost,
        },
    )
}

// The line by its first letter, which tells its kind. Any byte is a character here; the letters are among the first 128, where both
// have one number.
fn by_letter(s: &[u8]) -> Option<Line>
    ensures { result ≡ scan s.now }
{
    let (letter, rest) = s.split_first()?;
    match *letter as char {
        'c' => comment(rest),
        'p' => problem(rest),
        'n' => node(rest),
        'a' => arc(rest),
        _ => None,
    }
}

impl Line {
    // The line that the bytes spell, if they have one of the forms.
    #[tactic(auto, using(crate::proofs::Forms::spells))]
    pub fn scan(s: &[u8]) -> Option<Line>
        ensures found { result ≡ scan s.now }
        ensures spelled { Spelled result s.now }
    {
        by_letter(s)
    }
}
