// Writing a network as its canonical text.
#![tactic(auto)]

ghost use Rattle.std.specs.Prelude.{◌≡◌, ◌++◌, map, pos, IfOk, string_bytes, Decides};
ghost use Rattle.std.specs.List.{flat_map};
ghost use Rattle.writer.specs.Canonical.{Appends, problem_line, node_line, node_lines, arc_line, ended, canonical, ReadBack};

use records::{Leg, Station};
use std::alloc::{AllocError, Global};
use text_rules::id_of;

// Appends the problem line.
fn write_problem(out: &mut String, nodes: usize, arcs: usize) -> Result<(), AllocError>
    ensures { Appends result out.old out.new (ended (problem_line nodes arcs)) }
{
    writeln!(out, "p min {nodes} {arcs}")
}

// Appends the line of a node.
fn write_node(out: &mut String, id: usize, flow: i32) -> Result<(), AllocError>
    ensures { Appends result out.old out.new (ended (node_line id flow)) }
{
    writeln!(out, "n {id} {flow}")
}

// Appends the line of a leg.
fn write_arc(out: &mut String, leg: &Leg) -> Result<(), AllocError>
    ensures { Appends result out.old out.new (ended (arc_line leg.now)) }
{
    let source = id_of(leg.start);
    let target = id_of(leg.end);
    let capacity = leg.capacity;
    let charge = leg.charge;
    writeln!(out, "a {source} {target} 0 {capacity} {charge}")
}

// Appends a node line for each station whose balance is not 0.
// The ID is `i + 1` here and not by `id_of`, which takes a u16: of `stations` no bound is known that a cast would fit.
fn write_nodes(out: &mut String, stations: &[Station]) -> Result<(), AllocError>
    ensures { Appends result out.old out.new (flat_map ended (node_lines 0 stations.now)) }
{
    for (i, station) in stations.iter().enumerate() {
        if station.balance != 0 {
            write_node(out, i + 1, station.balance)?;
        }
    }
    Ok(())
}

// Appends an arc line for each leg.
fn write_arcs(out: &mut String, legs: &[Leg]) -> Result<(), AllocError>
    ensures { Appends result out.old out.new (flat_map ended (map arc_line legs.now)) }
{
    for leg in legs {
        write_arc(out, leg)?;
    }
    Ok(())
}

// Appends every line of a network.
fn write_network(out: &mut String, stations: &[Station], legs: &[Leg]) -> Result<(), AllocError>
    ensures { Appends result out.old out.new (canonical stations.now legs.now) }
{
    write_problem(out, stations.len(), legs.len())?;
    write_nodes(out, stations)?;
    write_arcs(out, legs)
}

// The canonical text of a network.
#[tactic(auto, using(crate::proofs::Stating::reads_back))]
pub fn network_text(heap: Global, stations: &[Station], legs: &[Leg]) -> Result<String, AllocError>
    ensures bytes { IfOk result (λ s. string_bytes s ≡ canonical stations.now legs.now) }
    ensures read_back { ReadBack stations.now legs.now }
{
    let mut out = String::new(heap);
    write_network(&mut out, stations, legs)?;
    Ok(out)
}
