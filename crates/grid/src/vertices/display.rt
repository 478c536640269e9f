// A vertex as it is printed: its coordinates with one space between.
ghost use Rattle.std.specs.List.{flat_map};
ghost use Rattle.std.specs.Fmt.{WritesOnOk};
ghost use Rattle.std.specs.Prelude.{Some};
ghost use Rattle.grid.specs.Vertices.{after_space, coordinates_of, spaced};

use super::Vertex;
use std::fmt;

impl fmt::Display for Vertex {
    ghost output = { λ v. Some (spaced (coordinates_of v)) };

    fn fmt<W: fmt::Write>(&self, f: &mut fmt::Formatter<W>) -> fmt::Result {
        write_spaced(f, self.coordinates())
    }
}

fn write_spaced<W: fmt::Write>(f: &mut fmt::Formatter<W>, numbers: &[i32]) -> fmt::Result
    ensures { WritesOnOk W.Write.write_str_gives f.old result (spaced numbers.now) f.new }
{
    let [first, others @ ..] = numbers else {
        return Ok(());
    };
    write!(f, "{first}")?;
    write_after_spaces(f, others)
}

fn write_after_spaces<W: fmt::Write>(f: &mut fmt::Formatter<W>, numbers: &[i32]) -> fmt::Result
    ensures { WritesOnOk W.Write.write_str_gives f.old result (flat_map after_space numbers.now) f.new }
{
    for x in numbers {
        write!(f, " {x}")?;
    }
    Ok(())
}
