// A field of samples that the caller lends.
ghost use Rattle.std.specs.Prelude.{◌≡◌, ◌^◌, ◌<◌};
ghost use Rattle.std.specs.Option.{option_map};
ghost use Rattle.grid.specs.Frames.{frame_numbers};
ghost use Rattle.fields.specs.Ranges.{table_good};
ghost use Rattle.fields.specs.Tables.{sampled, table_meaning};
ghost use Rattle.fields.specs.Values.{rows_of};

use crate::asking::{Field, outside};
use crate::values::Values;
use grid::{Cause, Fault, Frame, Vertex};

#[derive(Drop)]
pub struct Table<'a> {
    frame: Frame,
    samples: &'a [i16],
}

impl<'a> Table<'a> {
    // The samples of vertex number m are the k numbers from position k * m on; there may be any number of them.
    pub fn new(frame: Frame, samples: &'a [i16]) -> Table<'a>
        ensures { table_meaning (frame_numbers result.frame) result.samples.now ≡ table_meaning (frame_numbers frame) samples.now }
    {
        Table { frame, samples }
    }

    // The k samples of vertex number m, if all are there and on the scale.
    fn sampled(&self, m: u64) -> Option<Values>
        requires { m < 2 ^ 60 }
        ensures { option_map rows_of result ≡ sampled self.now.frame.k m self.now.samples.now }
    {
        let k = usize::from(self.frame.k());
        let first = k * m as usize;
        let samples = self.samples.get(first..first + k)?;
        Values::from_fn(self.frame.k(), |r| i64::from(samples[r]))
    }
}

impl<'a> Field for Table<'a> {
    ghost meaning = { λ t. table_meaning (frame_numbers t.frame) t.samples.now };

    ghost good = { λ t. table_good t.frame t.samples.now };

    fn frame(&self) -> Frame {
        self.frame
    }

    fn height(&self) -> u8 {
        0
    }

    // It ends as at a quadric and a level, but for the cause and what is computed: one function of the three would be no shorter.
    fn at(&self, vertex: &Vertex) -> Result<Values, Fault> {
        // Asked outside the closure: inside it nothing would be known of the table.
        let height = self.height();
        let place = self.frame.number(vertex).ok_or_else(|| outside(height))?;
        self.sampled(place).ok_or_else(|| Fault {
            cause: Cause::Blank,
            place,
            height,
        })
    }
}
