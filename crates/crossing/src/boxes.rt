// Cells in the box of a field.
ghost use Rattle.std.specs.Prelude.{◌≡◌, ◌+◌, ◌≤◌};
ghost use Rattle.grid.specs.Below.{all_below};
ghost use Rattle.grid.specs.Frames.{frame_numbers, sides_of};
ghost use Rattle.crossing.specs.Boxes.{fits_frame, lies_in, vertex_in};

use cells::Cell;
use grid::Frame;

// Functions, not methods: frames and cells belong to crates below.

// Whether the cell fits a field with this frame: d agrees, its dimension is k, and it lies in the box.
pub fn fits(frame: &Frame, cell: &Cell) -> bool
    ensures { result ≡ fits_frame (frame_numbers frame.now) cell.now.plain }
{
    cell.d() == frame.d() && cell.dimension() == frame.k() && lies_in(frame, cell)
}

// Whether all vertices of the cell are in the box.
pub fn lies_in(frame: &Frame, cell: &Cell) -> bool
    ensures { result ≡ lies_in (sides_of frame.now) cell.now.plain }
{
    are_vertices_in(frame, cell, u32::from(cell.dimension()) + 1)
}

// Whether the vertices 0 to n - 1 are in the box.
fn are_vertices_in(frame: &Frame, cell: &Cell, n: u32) -> bool
    requires { n ≤ cell.now.plain.l + 1 }
    ensures { result ≡ all_below (vertex_in (sides_of frame.now) cell.now.plain) n }
{
    (0..n).all(|i| cell.vertex(i).is_some_and(|vertex| frame.contains(&vertex)))
}
