ghost use Rattle.grid.specs.Frames.{frame_numbers};
ghost use Rattle.cases.specs.Tall.{tall_good, tall_meaning};

use crate::outcomes::has_fault;
use fields::{Field, Level, Values, Window};
use grid::{Cause, Fault, Frame, Vertex};
use std::test::Fail;

// A field of the greatest height, blank everywhere.
#[derive(Drop)]
struct Tall {
    frame: Frame,
}

impl Field for Tall {
    ghost meaning = { λ t. tall_meaning (frame_numbers t.frame) };

    ghost good = { λ t. tall_good t.frame };

    fn frame(&self) -> Frame {
        self.frame
    }

    fn height(&self) -> u8 {
        255
    }

    fn at(&self, vertex: &Vertex) -> Result<Values, Fault> {
        let cause = if self.frame.contains(vertex) {
            Cause::Blank
        } else {
            Cause::Outside
        };
        Err(Fault {
            cause,
            place: 0,
            height: 255,
        })
    }
}

#[test]
fn no_layer_is_higher_than_255(rt: HostRuntime) -> Result<(), Fail> {
    let frame = Frame::new(2, 1, &[2, 1])?;
    let level = Level::new(Tall { frame }, [0; 3]);
    assert_eq!(rt; level.height(), 255);
    has_fault(&rt, &level, &[2, 1], Cause::Blank, 0, 255)?;
    has_fault(&rt, &level, &[3, 1], Cause::Outside, 0, 255)?;
    let window = Window::new(level, frame, [0; 6]);
    assert_eq!(rt; window.height(), 255);
    has_fault(&rt, &window, &[3, 1], Cause::Outside, 0, 255)
}
