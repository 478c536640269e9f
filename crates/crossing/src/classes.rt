// The three classes of a cell.
ghost use Rattle.std.specs.Prelude.{Some};
ghost use Rattle.crossing.specs.Texts.{class_text};

use std::fmt;

#[derive(Clone, Copy, PartialEq, Eq, Debug)]
pub enum Class {
    Crossed,
    Clear,
    Degenerate,
}

// Written out, since no derive says which text it prints.
impl fmt::Display for Class {
    ghost output = { λ c. Some (class_text c) };

    fn fmt<W: fmt::Write>(&self, f: &mut fmt::Formatter<W>) -> fmt::Result {
        match self {
            Class::Crossed => write!(f, "crossed"),
            Class::Clear => write!(f, "clear"),
            Class::Degenerate => write!(f, "degenerate"),
        }
    }
}
