// What is printed: a line of numbers, and a line for each listed cell.
ghost use Rattle.std.specs.Prelude.{◌≡◌, Some};
ghost use Rattle.std.specs.Option.{option_map};
ghost use Rattle.roadtrace.specs.Lines.{head_text, line_answer, line_numbers, line_text};

use cells::{Cell, CellRecord};
use grid::Frame;
use std::fmt;

// d, k, count and steps.
#[derive(Clone, Copy)]
pub struct HeadLine {
    pub frame: Frame,
    pub count: usize,
    pub steps: u32,
}

impl fmt::Display for HeadLine {
    ghost output = { λ x. Some (head_text x) };

    fn fmt<W: fmt::Write>(&self, f: &mut fmt::Formatter<W>) -> fmt::Result {
        let HeadLine {
            frame,
            count,
            steps,
        } = self;
        let d = frame.d();
        let k = frame.k();
        write!(f, "{d} {k} {count} {steps}")
    }
}

// The place of a cell in the list, and the cell.
#[derive(Clone, Copy)]
pub struct CellLine {
    place: usize,
    cell: Cell,
}

impl fmt::Display for CellLine {
    ghost output = { λ x. Some (line_text (line_numbers x)) };

    fn fmt<W: fmt::Write>(&self, f: &mut fmt::Formatter<W>) -> fmt::Result {
        let CellLine { place, cell } = self;
        write!(f, "{place} {cell}")
    }
}

pub fn cell_line(place: usize, plain: CellRecord) -> Option<CellLine>
    ensures { option_map line_numbers result ≡ line_answer place plain }
{
    let cell = Cell::new(plain).ok()?;
    Some(CellLine { place, cell })
}
