// A way to split a part of a cell in two, A and then B.
ghost use Rattle.std.specs.Prelude.{◌≡◌, ◌<◌};
ghost use Rattle.cells.specs.Splits.{holds};

// The part that is split, and the code of A: the sum of 2^(j - 1) over its numbers j. B is the rest of the part.
#[derive(Clone, Copy)]
pub struct Split {
    pub part: u8,
    pub code: u8,
}

impl Split {
    // Whether A has place j.
    #[tactic(auto, unfolding(crate::specs::Splits::holds))]
    pub fn holds(self, j: usize) -> bool
        requires { j < 8 }
        ensures { result ≡ holds self.code j }
    {
        (self.code >> j) % 2 == 1
    }
}
