// Which signs some numbers have.
ghost use Rattle.std.specs.Prelude.{◌≡◌, ◌&&◌, pos, int_le, int_lt};

use crate::classes::Class;

#[derive(Clone, Copy)]
pub struct Signs {
    pub above: bool,
    pub below: bool,
    pub level: bool,
}

impl Signs {
    ghost use Rattle.std.specs.Prelude.{length};
    ghost use Rattle.crossing.specs.Determinants.{by_signs, signs_below};
    ghost use Rattle.crossing.specs.Weights.{entry};

    #[inline(always)]
    pub(crate) fn of(numbers: &[i64]) -> Signs
        ensures { result ≡ signs_below (entry numbers.now) (length numbers.now) }
    {
        Signs {
            above: numbers.iter().any(|x| is_above(*x)),
            below: numbers.iter().any(|x| is_below(*x)),
            level: numbers.iter().any(|x| is_level(*x)),
        }
    }

    // Both signs make a cell clear. One sign throughout makes it crossed, and a zero beside one sign degenerate.
    pub(crate) fn class(self) -> Class
        ensures { result ≡ by_signs self }
    {
        if self.above && self.below {
            Class::Clear
        } else if self.level {
            Class::Degenerate
        } else {
            Class::Crossed
        }
    }
}

// A function for each test, so that a wrong one fails by its own clause.
fn is_above(x: i64) -> bool
    ensures { result ≡ int_lt (pos 0) x }
{
    x > 0
}

fn is_below(x: i64) -> bool
    ensures { result ≡ int_lt x (pos 0) }
{
    x < 0
}

fn is_level(x: i64) -> bool
    ensures { result ≡ (int_le x (pos 0) && int_le (pos 0) x) }
{
    x == 0
}
