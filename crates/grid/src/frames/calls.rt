// Making a frame and reading it.
ghost use Rattle.std.specs.Prelude.{◌≡◌, ◌-◌, true, ◌++◌, length, replicate};
ghost use Rattle.grid.specs.Below.{all_below};
ghost use Rattle.grid.specs.Frames.{fitted_sides, frame_answer, frame_numbers, is_frame, is_side, side_ok, sides_of};
ghost use Rattle.grid.specs.Refusals.{answered};

use super::Frame;
use crate::padding::padded;
use crate::refusals::Refusal;

impl Frame {
    // A frame of d axes and k rows, with one side for each axis.
    pub fn new(d: u8, k: u8, sides: &[u16]) -> Result<Frame, Refusal>
        ensures { answered frame_numbers result ≡ frame_answer d k sides.now }
    {
        if !is_frame(d, k, sides) {
            return Err(Refusal::NotAFrame);
        }
        Ok(kept(d, k, sides))
    }

    pub fn d(&self) -> u8
        ensures { result ≡ (frame_numbers self.now).d }
    {
        self.d
    }

    pub fn k(&self) -> u8
        ensures { result ≡ (frame_numbers self.now).k }
    {
        self.k
    }

    // This frame with the sides of another: those beyond d are dropped, and missing ones are 1.
    pub fn with_sides_of(&self, other: &Frame) -> Frame
        ensures { frame_numbers result ≡ record { d = self.now.d; k = self.now.k; sides = fitted_sides self.now.d (sides_of other.now) } }
    {
        let sides = other.fitted();
        kept(self.d, self.k, &sides[..usize::from(self.d)])
    }

    // The d sides, axis by axis.
    pub fn sides(&self) -> &[u16]
        ensures { result.now ≡ sides_of self.now }
    {
        &self.sides[..usize::from(self.d)]
    }

    // The sides, and 1 in the places past them.
    fn fitted(&self) -> [u16; 6]
        ensures { result ≡ sides_of self.now ++ replicate (6 - length (sides_of self.now)) 1 }
    {
        padded(self.sides(), 1)
    }
}

// The three numbers stand apart up to here: a frame is what joins them.
fn is_frame(d: u8, k: u8, sides: &[u16]) -> bool
    ensures { result ≡ is_frame d k sides.now }
{
    (2..=6).contains(&d)
        && (1..=3).contains(&k)
        && k < d
        && sides.len() == usize::from(d)
        && are_sides(sides)
}

fn kept(d: u8, k: u8, sides: &[u16]) -> Frame
    requires { is_frame d k sides.now ≡ true }
    ensures { frame_numbers result ≡ record { d = d; k = k; sides = sides.now } }
{
    Frame {
        d,
        k,
        sides: padded(sides, 0),
    }
}

fn is_side(side: u16) -> bool
    ensures { result ≡ is_side side }
{
    (1..=1000).contains(&side)
}

fn are_sides(sides: &[u16]) -> bool
    ensures { result ≡ all_below (side_ok sides.now) (length sides.now) }
{
    sides.iter().all(|side| is_side(*side))
}
