// Traces the road of the level that it holds: plants the seed, steps to the end, seals, and prints what is listed.
#![tactic(auto)]

mod lines;

use cells::{Cell, CellRecord};
use fields::{Field, Table};
use first_level::SAMPLES;
use grid::Refusal;
use lines::HeadLine;
use std::io;
use tracing::{Sealed, Trace};

// What stands in the places of a list that are not used: no cell.
const UNUSED: CellRecord = CellRecord {
    d: 0,
    l: 0,
    base: [0; 6],
    labels: [0; 7],
};

fn main(rt: HostRuntime) -> io::Result<()> {
    match first_level::open() {
        Ok(level) => {
            let table = Table::new(level.frame, &SAMPLES);
            print_road(&rt, &table, &level.seed)
        }
        Err(refusal) => print_refusal(&rt, refusal),
    }
}

fn print_road(rt: &impl Print, field: &impl Field, seed: &Cell) -> io::Result<()> {
    let mut list = [UNUSED; 16];
    match traced(field, seed, &mut list) {
        Ok(sealed) => print_cells(rt, field, &sealed, &list),
        Err(refusal) => print_refusal(rt, refusal),
    }
}

// The whole road in the list, or the first refusal on the way. Field, seed and list go on as the calls of a trace take them.
fn traced<F: Field>(field: &F, seed: &Cell, list: &mut [CellRecord]) -> Result<Sealed, Refusal> {
    let mut trace = Trace::plant(field, seed, list)?;
    trace.step(field, list, u32::MAX).ending?;
    trace.seal().map_err(|unsealed| unsealed.refusal)
}

fn print_cells(
    rt: &impl Print,
    field: &impl Field,
    sealed: &Sealed,
    list: &[CellRecord],
) -> io::Result<()> {
    let head = HeadLine {
        frame: field.frame(),
        count: sealed.count(),
        steps: sealed.steps(),
    };
    println!(rt; "{head}")?;
    let listed = list.iter().take(sealed.count()).enumerate();
    for line in listed.filter_map(|(place, record)| lines::cell_line(place, *record)) {
        println!(rt; "{line}")?;
    }
    Ok(())
}

fn print_refusal(rt: &impl Print, refusal: Refusal) -> io::Result<()> {
    let number = refusal.number();
    println!(rt; "refused {number}: {refusal}")
}
