// The calls and the text of their answers.
use crate::asks::{AtVertex, OfCell, ask_quadric, ask_table};
use crate::readers::{Reader, numbers};
use crate::stops::Stop;
use crate::texts::{put_all, refused};
use cells::{Cell, CellRecord};
use crossing::class_of;
use grid::Frame;
use std::alloc::{AllocError, Global};
use std::fmt::Write;

// The heap goes beside what is to be read, as std's calls take it.
pub fn answer(heap: Global, line: &str) -> Result<String, AllocError> {
    match answered(heap, line) {
        Ok(text) => Ok(text),
        Err(Stop::Unread) => String::from_str(heap, "?"),
        Err(Stop::Refused(refusal)) => refused(heap, refusal),
        Err(Stop::OutOfMemory(error)) => Err(error),
    }
}

fn answered(heap: Global, line: &str) -> Result<String, Stop> {
    let numbers = numbers(heap, line)?;
    let mut reader = Reader::new(heap, numbers.as_slice());
    match line.split(' ').next().unwrap_or("") {
        "frame" => frame(&mut reader),
        "class" => class(&mut reader),
        "ask-table" => ask_table(AtVertex, &mut reader),
        "ask-quadric" => ask_quadric(AtVertex, &mut reader),
        "test-table" => ask_table(OfCell, &mut reader),
        "test-quadric" => ask_quadric(OfCell, &mut reader),
        word => on_cell(word, &mut reader),
    }
}

// A cell of 15 numbers, and the number of a facet, a cofacet or a pair.
fn on_cell(word: &str, reader: &mut Reader<'_>) -> Result<String, Stop> {
    let cell = Cell::new(reader.record()?)?;
    // 0 stands for a number that is missing or fits no 32 bits: the answers from elsewhere take it so, here and below.
    let n = reader.number().unwrap_or(0);
    match word {
        "cell" => vertices(reader.heap(), &cell),
        "facet" => record(reader.heap(), &cell.facet(n)?),
        "cofacet" => record(reader.heap(), &cell.cofacet(n)?),
        "pair" => {
            let (cofacet, vertex) = cell.pair(n)?;
            Ok(format!(in reader.heap(); "ok {cofacet} {vertex}")?)
        }
        _ => Err(Stop::Unread),
    }
}

// k, and then the values vertex by vertex.
fn class(reader: &mut Reader<'_>) -> Result<String, Stop> {
    let k = reader.number().unwrap_or(0);
    let values = reader.all()?;
    match class_of(k, values.as_slice()) {
        Some(class) => Ok(format!(in reader.heap(); "ok {class}")?),
        None => Ok(String::from_str(reader.heap(), "none")?),
    }
}

// d, k, how many sides there are, and the sides.
fn frame(reader: &mut Reader<'_>) -> Result<String, Stop> {
    let d = reader.number().unwrap_or(0);
    let k = reader.number().unwrap_or(0);
    let _ = reader.number::<i64>();
    let sides = reader.all()?;
    Frame::new(d, k, sides.as_slice())?;
    Ok(String::from_str(reader.heap(), "ok")?)
}

fn vertices(heap: Global, cell: &Cell) -> Result<String, Stop> {
    let mut text = format!(in heap; "ok {}", cell.cofacets())?;
    for vertex in (0..=u32::from(cell.dimension())).filter_map(|i| cell.vertex(i)) {
        write!(text, " {vertex}")?;
    }
    Ok(text)
}

fn record(heap: Global, cell: &Cell) -> Result<String, Stop> {
    let CellRecord { d, l, base, labels } = cell.record();
    let mut text = format!(in heap; "ok {d} {l}")?;
    put_all(&mut text, &base)?;
    put_all(&mut text, &labels)?;
    Ok(text)
}
