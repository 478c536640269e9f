// Planting: a trace begins at a crossed seed.
ghost use Rattle.std.specs.Prelude.{◌≡◌};
ghost use Rattle.grid.specs.Refusals.{answered};
ghost use Rattle.crossing.specs.Crossing.{test_answer};
ghost use Rattle.tracing.specs.Plants.{plant_answer, plant_list, seeded};
ghost use Rattle.tracing.specs.Traces.{trace_numbers};

use super::Trace;
use cells::{Cell, CellRecord};
use crossing::{Class, class_over};
use fields::Field;
use grid::Refusal;

impl Trace {
    // A trace whose list holds the seed at place 0.
    pub fn plant<F: Field>(
        field: &F,
        seed: &Cell,
        list: &mut [CellRecord],
    ) -> Result<Trace, Refusal>
        ensures answer { answered trace_numbers result ≡ plant_answer (F.Field.meaning field.now) seed.now.plain list.old }
        ensures written { list.new ≡ plant_list (F.Field.meaning field.now) seed.now.plain list.old }
    {
        if list.is_empty() {
            return Err(Refusal::EmptyList);
        }
        let trace = Trace::begun(field, seed)?;
        list[0] = seed.record();
        Ok(trace)
    }

    // The trace of a seed before its first step.
    fn begun<F: Field>(field: &F, seed: &Cell) -> Result<Trace, Refusal>
        ensures { answered trace_numbers result ≡ seeded (test_answer (F.Field.meaning field.now) seed.now.plain) }
    {
        match class_over(field, seed)? {
            Class::Crossed => Ok(Trace {
                count: 1,
                next: 0,
                pair: 0,
                steps: 0,
            }),
            Class::Clear => Err(Refusal::ClearSeed),
            Class::Degenerate => Err(Refusal::Degenerate),
        }
    }
}
