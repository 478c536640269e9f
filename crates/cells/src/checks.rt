// The test of a record's numbers.
ghost use Rattle.std.specs.Prelude.{◌≡◌, ◌+◌, ◌+ℤ◌, ◌<◌, ◌≤◌, ◌↔◌, true, IsTrue, length, pos, if◌then◌else◌, nat_le};
ghost use Rattle.grid.specs.Below.{all_below};
ghost use Rattle.cells.specs.Cells.{is_cell, IsCell, is_partition, is_placed, label_ok, next_part_full};
ghost use Rattle.cells.specs.Closed.{axis_ok};
ghost use Rattle.cells.specs.World.{in_world};

use crate::records::CellRecord;
use crate::world::is_in_world;

impl CellRecord {
    #[tactic(auto, using(crate::proofs::Checked::cell_told, crate::proofs::Checked::cell_parts))]
    pub(crate) fn is_cell(&self) -> bool
        ensures test { result ≡ is_cell self.now }
        ensures means { IsTrue result ↔ (IsCell self.now) }
    {
        self.is_partition() && self.is_placed()
    }

    fn is_partition(&self) -> bool
        ensures test { result ≡ is_partition self.now }
        ensures long { length self.now.base ≡ 6 }
    {
        if !(2..=6).contains(&self.d) || self.l > self.d {
            return false;
        }
        self.are_labels()
            && self.labels[usize::from(self.d)] == self.l + 1
            && self.are_parts_full(self.l + 1)
    }

    fn are_labels(&self) -> bool
        ensures { result ≡ all_below (label_ok self.now) 7 }
    {
        // Not a walk over the labels, since what a label must be depends on its place.
        (0..7).all(|j| self.is_label(j))
    }

    fn is_label(&self, j: usize) -> bool
        requires { j < 7 }
        ensures { result ≡ label_ok self.now j }
    {
        let label = self.labels[j];
        if j > usize::from(self.d) {
            return label == 0;
        }
        (1..=u16::from(self.l) + 1).contains(&u16::from(label))
    }

    // Whether each of the parts 1 to n has a number.
    fn are_parts_full(&self, n: u8) -> bool
        requires { self.now.d ≤ 6 }
        ensures { result ≡ all_below (next_part_full self.now) n }
    {
        let used = &self.labels[..=usize::from(self.d)];
        (0..n).all(|p| used.contains(&(p + 1)))
    }

    // Whether all vertices lie in the world.
    pub(crate) fn is_placed(&self) -> bool
        requires partition { is_partition self.now ≡ true }
        requires long { length self.now.base ≡ 6 }
        ensures { result ≡ is_placed self.now }
    {
        // Not a walk over the base numbers, since what a base number must be depends on its place.
        (0..6).all(|a| self.is_axis_ok(a))
    }

    fn is_axis_ok(&self, a: usize) -> bool
        requires { a < 6 }
        ensures { result ≡ axis_ok self.now a }
    {
        let base = self.base[a];
        if a >= usize::from(self.d) {
            return base == 0;
        }
        is_in_world(base) && is_in_world(coordinate(base, self.labels[a], self.l))
    }
}

// The coordinate of vertex i along an axis with this base and label: one above the base once the part of the axis is passed.
pub fn coordinate(base: i32, label: u8, i: u8) -> i32
    requires { in_world base ≡ true }
    ensures { result ≡ base +ℤ pos (if nat_le label i then 1 else 0) }
{
    if label <= i { base + 1 } else { base }
}
