// Judging one line by what the lines before it settled. Casts from u32: `Line` says why.
ghost use Rattle.std.specs.Prelude.{◌≡◌, ℕ, ◌+◌, ◌^◌, ◌<◌, ◌≤◌, true};
ghost use Rattle.text_rules.specs.Judging.{in_order, is_node, in_range, has_room, in_count, judged, advanced, finished};

use crate::progress::{Header, Progress, Room};
use lines::Line;
use records::{MOST_CAPACITY, MOST_CHARGE, MOST_LEGS, MOST_REPORTED, MOST_STATIONS, Refusal};

impl Room {
    // Whether the tables have room for what the line announces.
    fn suffices(&self, line: Line) -> bool
        ensures { result ≡ has_room self.now line }
    {
        match line {
            Line::Problem { nodes, arcs } => {
                nodes as usize <= self.stations && arcs as usize <= self.legs
            }
            _ => true,
        }
    }
}

impl Progress {
    // Whether the line may stand here.
    fn in_order(&self, line: Line) -> bool
        ensures { result ≡ in_order self.now line }
    {
        match line {
            Line::Comment => true,
            Line::Problem { .. } => self.header.is_none(),
            Line::Node { .. } => self.header.is_some() && self.arcs == 0,
            Line::Arc { .. } => self.header.is_some(),
        }
    }

    // Whether the number names a node.
    fn is_node(&self, id: u32) -> bool
        ensures { result ≡ is_node self.now id }
    {
        let nodes = self.header.map_or(0, |h| h.nodes);
        (1..=nodes).contains(&(id as usize))
    }

    // Whether every field of the line lies in its range. A flow's range is a reported balance's, too, but judged on its own there.
    fn in_range(&self, line: Line) -> bool
        ensures { result ≡ in_range self.now line }
    {
        match line {
            Line::Comment => true,
            Line::Problem { nodes, arcs } => {
                (1..=MOST_STATIONS).contains(&(nodes as usize)) && arcs as usize <= MOST_LEGS
            }
            Line::Node { id, flow } => {
                self.is_node(id) && (-MOST_REPORTED..=MOST_REPORTED).contains(&flow)
            },
            Line::Arc {
                source,
                target,
                low,
                capacity,
                cost,
            } => {
                self.is_node(source)
                    && self.is_node(target)
                    && source != target
                    && low == 0
                    && capacity <= u32::from(MOST_CAPACITY)
                    && cost <= MOST_CHARGE
            }
        }
    }

    // Whether the arcs announced still lack this line.
    fn in_count(&self, line: Line) -> bool
        ensures { result ≡ in_count self.now line }
    {
        match line {
            Line::Arc { .. } => self.header.is_some_and(|h| self.arcs < h.arcs),
            _ => true,
        }
    }

    // What is settled once the line is taken.
    fn advanced(&self, line: Line) -> Progress
        requires { in_count self.now line ≡ true }
        ensures { result ≡ advanced self.now line }
    {
        match (line, self.header) {
            (Line::Problem { nodes, arcs }, _) => Progress {
                header: Some(Header {
                    nodes: nodes as usize,
                    arcs: arcs as usize,
                }),
                ..*self
            },
            (Line::Arc { .. }, Some(h)) => Progress {
                header: Some(h),
                arcs: self.arcs + 1,
            },
            _ => *self,
        }
    }

    // What is settled once the line, which has the number given, is taken; or why it is not.
    pub fn judge(&self, room: Room, number: usize, line: Line) -> Result<Progress, Refusal>
        ensures { result ≡ judged room self.now number line }
    {
        if !self.in_order(line) {
            return Err(Refusal::LineOutOfOrder { line: number });
        }
        if !self.in_range(line) {
            return Err(Refusal::FieldOutOfRange { line: number });
        }
        if !room.suffices(line) {
            return Err(Refusal::TablesTooShort { line: number });
        }
        if !self.in_count(line) {
            return Err(Refusal::ArcsMiscounted { line: number });
        }
        Ok(self.advanced(line))
    }

    // What the problem line announced, once every line is taken; the last has the number given.
    pub fn finish(&self, number: usize) -> Result<Header, Refusal>
        ensures { result ≡ finished self.now number }
    {
        self.header
            .filter(|h| self.arcs == h.arcs)
            .ok_or(Refusal::ArcsMiscounted { line: number })
    }
}
