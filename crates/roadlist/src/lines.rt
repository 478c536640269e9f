// The line of a vertex: its number in the cell, its coordinates, and its number in the box.
ghost use Rattle.std.specs.Prelude.{◌≡◌, Some};
ghost use Rattle.std.specs.Option.{option_map};
ghost use Rattle.grid.specs.Frames.{sides_of};
ghost use Rattle.roadlist.specs.Lines.{line_answer, line_numbers, line_text};

use cells::Cell;
use grid::{Frame, Vertex};
use std::fmt;

#[derive(Clone, Copy)]
pub struct VertexLine {
    number: u32,
    vertex: Vertex,
    place: u64,
}

impl fmt::Display for VertexLine {
    ghost output = { λ x. Some (line_text (line_numbers x)) };

    fn fmt<W: fmt::Write>(&self, f: &mut fmt::Formatter<W>) -> fmt::Result {
        let VertexLine {
            number,
            vertex,
            place,
        } = self;
        write!(f, "{number} {vertex} {place}")
    }
}

pub fn vertex_line(frame: &Frame, cell: &Cell, i: u32) -> Option<VertexLine>
    ensures { option_map line_numbers result ≡ line_answer (sides_of frame.now) cell.now.plain i }
{
    let vertex = cell.vertex(i)?;
    let place = frame.number(&vertex)?;
    Some(VertexLine {
        number: i,
        vertex,
        place,
    })
}
