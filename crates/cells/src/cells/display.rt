// A cell as it is printed: its base, a space, and its labels as digits.
ghost use Rattle.std.specs.List.{flat_map};
ghost use Rattle.std.specs.Prelude.{Some, decimal};
ghost use Rattle.std.specs.Fmt.{WritesOnOk};
ghost use Rattle.cells.specs.Texts.{cell_text};

use super::Cell;
use std::fmt;

impl fmt::Display for Cell {
    ghost output = { λ c. Some (cell_text c.plain) };

    fn fmt<W: fmt::Write>(&self, f: &mut fmt::Formatter<W>) -> fmt::Result {
        let base = self.vertex(0).unwrap();
        let labels = Digits {
            numbers: &self.plain.labels[..=usize::from(self.plain.d)],
        };
        write!(f, "{base} {labels}")
    }
}

// Numbers one after another, with nothing between.
#[derive(Drop)]
struct Digits<'a> {
    numbers: &'a [u8],
}

impl fmt::Display for Digits<'_> {
    ghost output = { λ x. Some (flat_map decimal x.numbers.now) };

    fn fmt<W: fmt::Write>(&self, f: &mut fmt::Formatter<W>) -> fmt::Result {
        write_digits(f, self.numbers)
    }
}

// Not one function with the writer of spaced numbers in grid: that one writes i32 with spaces between, and is private to another crate.
fn write_digits<W: fmt::Write>(f: &mut fmt::Formatter<W>, numbers: &[u8]) -> fmt::Result
    ensures { WritesOnOk W.Write.write_str_gives f.old result (flat_map decimal numbers.now) f.new }
{
    for number in numbers {
        write!(f, "{number}")?;
    }
    Ok(())
}
