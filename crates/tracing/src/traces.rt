// A trace: four numbers that are moved from call to call. No trace is copied, and only plant makes one.
mod planting;
mod sealing;
mod steps;
mod treating;

ghost use Rattle.std.specs.Prelude.{◌≡◌, ◌+◌, ◌*◌, ◌≤◌};

use grid::Refusal;

// How many cells are listed, the place of the cell that is worked on, the number of its next pair, and the pairs treated so far.
// No cell has more than 7,056 pairs.
#[derive(Drop)]
pub struct Trace {
    count: usize,
    next: usize,
    pair: u32,
    steps: u32,
    ghost ordered: { next ≤ count },
    ghost few: { count ≤ 65535 },
    ghost narrow: { pair ≤ 7056 },
    ghost paced: { steps ≤ 7056 * next + pair },
}

// The numbers of a trace, to be read. They may be copied and written down, which makes no trace.
#[derive(Clone, Copy, PartialEq, Eq, Debug)]
pub struct Report {
    pub count: usize,
    pub next: usize,
    pub pair: u32,
    pub steps: u32,
}

// How a call of step ends that is not refused.
#[derive(Clone, Copy, PartialEq, Eq, Debug)]
pub enum Ending {
    Finished,
    Spent,
}

// What step answers: how many steps it took, and how it ended. A call that is refused may have taken steps too.
#[derive(Clone, Copy, PartialEq, Eq, Debug)]
pub struct Stepping {
    pub taken: u32,
    pub ending: Result<Ending, Refusal>,
}

// A trace that seal accepted. It takes no step, and only seal makes one.
#[derive(Drop)]
pub struct Sealed {
    count: usize,
    steps: u32,
}

impl Sealed {
    // How many cells are listed.
    pub fn count(&self) -> usize
        ensures { result ≡ self.now.count }
    {
        self.count
    }

    // How many pairs were treated.
    pub fn steps(&self) -> u32
        ensures { result ≡ self.now.steps }
    {
        self.steps
    }
}

// A trace that seal refused, as it was.
#[derive(Drop)]
pub struct Unsealed {
    pub trace: Trace,
    pub refusal: Refusal,
}
