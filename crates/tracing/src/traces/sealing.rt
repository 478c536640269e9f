// Reading a trace, and sealing one that is finished.
ghost use Rattle.std.specs.Prelude.{◌≡◌, ◌==◌};
ghost use Rattle.tracing.specs.Answers.{reported, sealing_of};
ghost use Rattle.tracing.specs.Law.{LawOf};
ghost use Rattle.tracing.specs.Seals.{report_answer, seal_answer};
ghost use Rattle.tracing.specs.Traces.{trace_numbers};

use super::{Report, Sealed, Trace, Unsealed};
use grid::Refusal;

impl Trace {
    pub fn report(&self) -> Report
        ensures { reported result ≡ report_answer (trace_numbers self.now) }
    {
        Report {
            count: self.count,
            next: self.next,
            pair: self.pair,
            steps: self.steps,
        }
    }

    // Accepts a trace whose listed cells are all worked off. Any other comes back as it was.
    pub fn seal(self) -> Result<Sealed, Unsealed>
        ensures answer { sealing_of result ≡ seal_answer (trace_numbers self) }
        ensures law { LawOf (trace_numbers self) }
    {
        if !self.is_finished() {
            return Err(Unsealed {
                trace: self,
                refusal: Refusal::NotFinished,
            });
        }
        Ok(Sealed {
            count: self.count,
            steps: self.steps,
        })
    }

    // Whether all listed cells are worked off.
    pub(crate) fn is_finished(&self) -> bool
        ensures is { result ≡ (self.now.next == self.now.count) }
        ensures law { LawOf (trace_numbers self.now) }
    {
        self.next == self.count
    }
}
