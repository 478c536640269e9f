// Stepping: pair by pair until the trace is finished, the budget is spent, or a pair is refused.
ghost use Rattle.std.specs.Prelude.{◌≡◌, ◌≤◌, Ok, length};
ghost use Rattle.tracing.specs.Answers.{ending_numbers, stepped_of};
ghost use Rattle.tracing.specs.Law.{StepsJoin};
ghost use Rattle.tracing.specs.Steps.{run, step_answer};
ghost use Rattle.tracing.specs.Traces.{trace_numbers};
ghost use Rattle.tracing.specs.Turns.{at_last};

use super::{Ending, Stepping, Trace};
use cells::CellRecord;
use fields::Field;
use grid::Refusal;

impl Trace {
    // At most `budget` steps over the field and the list that the trace was planted in.
    #[tactic(auto, using(crate::proofs::Joining::steps_join))]
    pub fn step<F: Field>(&mut self, field: &F, list: &mut [CellRecord], budget: u32) -> Stepping
        ensures answer { stepped_of self.new list.new result ≡ step_answer (F.Field.meaning field.now) budget (trace_numbers self.old) list.old }
        ensures joins { StepsJoin }
    {
        if list.len() < self.count {
            return Stepping {
                taken: 0,
                ending: Err(Refusal::NotThisList),
            };
        }
        self.go_on(field, list, budget)
    }

    // The steps over a list that is long enough. Trace, field and list stay three parameters. Tried as one struct that holds this
    // fact: what the list holds after `Listed` had borrowed it did not prove.
    fn go_on<F: Field>(&mut self, field: &F, list: &mut [CellRecord], budget: u32) -> Stepping
        requires { self.old.count ≤ length list.old }
        ensures { stepped_of self.new list.new result ≡ run (F.Field.meaning field.now) budget (trace_numbers self.old) list.old }
    {
        for taken in 0..budget {
            if self.is_finished() {
                return Stepping {
                    taken,
                    ending: Ok(Ending::Finished),
                };
            }
            if let Err(refusal) = self.treat(field, list) {
                return Stepping {
                    taken,
                    ending: Err(refusal),
                };
            }
        }
        Stepping {
            taken: budget,
            ending: Ok(self.ending()),
        }
    }

    // How a call ends that used its whole budget.
    fn ending(&self) -> Ending
        ensures { ending_numbers (Ok result) ≡ at_last (trace_numbers self.now) }
    {
        if self.is_finished() {
            return Ending::Finished;
        }
        Ending::Spent
    }
}
