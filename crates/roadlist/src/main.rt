// Prints the level that it holds: d and k, the seed cell, each vertex of the seed with its place in the box and its values, and
// the seed's cofacets.
#![tactic(auto)]

mod lines;

use cells::Cell;
use fields::{Field, Table};
use first_level::SAMPLES;
use grid::Vertex;
use std::io;

// Both programs open the level alike, and part at once: what they share of `main` is too little to be handed a function.
fn main(rt: HostRuntime) -> io::Result<()> {
    match first_level::open() {
        Ok(level) => {
            let table = Table::new(level.frame, &SAMPLES);
            print_level(&rt, &table, &level.seed)
        }
        Err(refusal) => {
            let number = refusal.number();
            println!(rt; "refused {number}: {refusal}")
        }
    }
}

// The field and its seed are passed on as two: a struct of both would be taken apart in each function.
fn print_level(rt: &impl Print, field: &impl Field, seed: &Cell) -> io::Result<()> {
    let d = field.frame().d();
    let k = field.frame().k();
    println!(rt; "{d} {k}")?;
    println!(rt; "{seed}")?;
    // The number is printed beside the vertex, so a chain would have to hand on both and say no more.
    for i in 0..=u32::from(seed.dimension()) {
        if let Some(vertex) = seed.vertex(i) {
            print_vertex(rt, field, seed, i, &vertex)?;
        }
    }
    print_cofacets(rt, seed)
}

fn print_vertex(
    rt: &impl Print,
    field: &impl Field,
    seed: &Cell,
    i: u32,
    vertex: &Vertex,
) -> io::Result<()> {
    if let Some(line) = lines::vertex_line(&field.frame(), seed, i) {
        print!(rt; "{line}")?;
    }
    print_outcome(rt, field, vertex)?;
    println!(rt; "")
}

fn print_outcome(rt: &impl Print, field: &impl Field, vertex: &Vertex) -> io::Result<()> {
    match field.at(vertex) {
        Ok(values) => {
            for row in values.rows() {
                print!(rt; " {row}")?;
            }
            Ok(())
        }
        Err(fault) => print!(rt; " {fault}"),
    }
}

fn print_cofacets(rt: &impl Print, seed: &Cell) -> io::Result<()> {
    // As with the vertices, the number is printed too.
    for c in 0..seed.cofacets() {
        if let Ok(cofacet) = seed.cofacet(c) {
            println!(rt; "{c} {cofacet}")?;
        }
    }
    Ok(())
}
