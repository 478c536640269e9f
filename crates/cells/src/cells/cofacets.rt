// The cofacets of a cell.
ghost use Rattle.std.specs.Prelude.{◌≡◌, ◌<◌, ◌≤◌, true, length, pos, ◌-ℤ◌, IfOk, if◌then◌else◌};
ghost use Rattle.grid.specs.Below.{table};
ghost use Rattle.grid.specs.Refusals.{answered};
ghost use Rattle.cells.specs.Cofacets.{cofacet_answer, cofacet_base, cofacet_by, cofacet_label, split_part, turned_part};
ghost use Rattle.cells.specs.Faces.{AllCofacets, CofacetLaws};
ghost use Rattle.cells.specs.Splits.{splits};
ghost use Rattle.cells.specs.World.{in_world};

use super::Cell;
use super::calls::made;
use crate::records::CellRecord;
use crate::splits::Split;
use grid::Refusal;

impl Cell {
    // How many cofacets the cell has.
    pub fn cofacets(&self) -> u32
        ensures count { result ≡ length (splits self.now.plain) }
        ensures all { AllCofacets self.now.plain }
        ensures small { result ≤ 882 }
    {
        self.count_splits()
    }

    // Cofacet c, by the part that is split and then by the code of A.
    pub fn cofacet(&self, c: u32) -> Result<Cell, Refusal>
        ensures answer { answered (λ t. t.plain) result ≡ cofacet_answer self.now.plain c }
        ensures laws { IfOk result (λ t. CofacetLaws self.now.plain c t.plain) }
    {
        let split = self.nth_split(c).ok_or(Refusal::NoSuchNumber)?;
        let plain = self.cofacet_record(split);
        if !plain.is_placed() {
            return Err(Refusal::LeavesTheWorld);
        }
        Ok(made(plain))
    }

    fn cofacet_record(&self, split: Split) -> CellRecord
        ensures { result ≡ cofacet_by self.now.plain split.part split.code }
    {
        CellRecord {
            d: self.plain.d,
            l: self.plain.l + 1,
            base: self.cofacet_base(split),
            labels: self.cofacet_labels(split),
        }
    }

    fn cofacet_base(&self, split: Split) -> [i32; 6]
        ensures { result ≡ table 6 (cofacet_base self.now.plain split.part split.code) }
    {
        std::array::from_fn(|j| self.cofacet_base_at(split, j))
    }

    // Where A has the number d + 1, the base goes down along the axes of B.
    #[tactic(auto, using(crate::proofs::Ascending::read_in_world))]
    fn cofacet_base_at(&self, split: Split, j: usize) -> i32
        requires { j < 6 }
        ensures { result ≡ cofacet_base self.now.plain split.part split.code j }
    {
        let turns = split.holds(usize::from(self.plain.d));
        lowered(
            self.plain.base[j],
            turns && self.plain.labels[j] == split.part && !split.holds(j),
        )
    }

    fn cofacet_labels(&self, split: Split) -> [u8; 7]
        ensures { result ≡ table 7 (cofacet_label self.now.plain split.part split.code) }
    {
        std::array::from_fn(|j| self.cofacet_label(split, j))
    }

    #[tactic(auto, using(crate::proofs::Ascending::label_small))]
    fn cofacet_label(&self, split: Split, j: usize) -> u8
        requires { j < 7 }
        ensures { result ≡ cofacet_label self.now.plain split.part split.code j }
    {
        let is_a = split.holds(j);
        if split.holds(usize::from(self.plain.d)) {
            turned_part(split.part, is_a, self.plain.labels[j])
        } else {
            split_part(split.part, is_a, self.plain.labels[j])
        }
    }
}

fn lowered(x: i32, down: bool) -> i32
    requires { in_world x ≡ true }
    ensures { result ≡ x -ℤ pos (if down then 1 else 0) }
{
    if down { x - 1 } else { x }
}

// B becomes part 1, and the others follow with A last.
fn turned_part(p: u8, is_a: bool, x: u8) -> u8
    requires { x ≤ 7 }
    ensures { result ≡ turned_part p is_a x }
{
    if x == 0 {
        0
    } else if x == p && !is_a {
        1
    } else {
        x + 1
    }
}

// A stays part p, and B and all that follows go up by one.
fn split_part(p: u8, is_a: bool, x: u8) -> u8
    requires { x ≤ 7 }
    ensures { result ≡ split_part p is_a x }
{
    if x < p || x == p && is_a { x } else { x + 1 }
}
