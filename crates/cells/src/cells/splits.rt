// Counting the splits of a cell, and finding one by its number.
ghost use Rattle.std.specs.Prelude.{◌≡◌, ◌+◌, ◌-◌, ◌^◌, ◌<◌, ◌≤◌, length, MatchOption};
ghost use Rattle.cells.specs.Cells.{in_part};
ghost use Rattle.cells.specs.Splits.{split_at, split_by, splits, splits_of};
ghost use Rattle.cells.specs.Spread.{spread};

use super::Cell;
use crate::splits::Split;

impl Cell {
    pub(crate) fn count_splits(&self) -> u32
        ensures { result ≡ length (splits self.now.plain) }
    {
        (1..self.plain.l + 2).map(|p| self.count_of_part(p)).sum()
    }

    // The split with number c.
    pub(crate) fn nth_split(&self, c: u32) -> Option<Split>
        ensures { MatchOption result (length (splits self.now.plain) ≤ c) (λ s. (c < length (splits self.now.plain)) × (s ≡ split_at self.now.plain c)) }
    {
        // What is left of c after the parts before p; it changes from part to part, so a chain would be no plainer.
        let mut left = c;
        for p in 1..self.plain.l + 2 {
            let n = self.count_of_part(p);
            if left < n {
                return Some(self.split_of_part(p, left));
            }
            left -= n;
        }
        None
    }

    // How many splits part p has.
    fn count_of_part(&self, p: u8) -> u32
        ensures { result ≡ length (splits_of self.now.plain p) }
    {
        // Counted in a loop: by filter and count, `cofacets` took twice as many instructions.
        let mut size = 0;
        for label in &self.plain.labels {
            if *label == p {
                size += 1;
            }
        }
        proper_sets(size)
    }

    // Split t of part p: sets are numbered as the numbers that are spread, the empty one left out.
    fn split_of_part(&self, p: u8, t: u32) -> Split
        requires { t < 126 }
        ensures { result ≡ split_by p (spread (in_part self.now.plain p) 0 7 (t + 1)) }
    {
        Split {
            part: p,
            code: self.spread_over(p, t + 1),
        }
    }

    // The set that has the bits of n at the numbers of part p, the lowest first.
    fn spread_over(&self, p: u8, n: u32) -> u8
        ensures { result ≡ spread (in_part self.now.plain p) 0 7 n }
    {
        // What is left of n and the bit of the label's place; both change from label to label, so a chain would be no plainer.
        let mut rest = n;
        let mut bit = 1;
        let mut code = 0;
        for label in &self.plain.labels {
            if *label == p {
                if rest % 2 == 1 {
                    code += bit;
                }
                rest /= 2;
            }
            bit *= 2;
        }
        code
    }
}

// How many sets of numbers a part of this size has, without the empty one and the whole part.
fn proper_sets(size: usize) -> u32
    requires { size ≤ 7 }
    ensures { result ≡ 2 ^ size - 2 }
{
    (1u32 << size).saturating_sub(2)
}
