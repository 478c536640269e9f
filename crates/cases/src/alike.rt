use fields::{Field, Level, Table, Window, alike_at};
use grid::{Frame, Vertex};
use std::process::Abort;
use std::test::Fail;

// What a test says stands as parameters, one by one: a struct of them would be written out at each call. So it is in the helpers of
// the other tests.
fn is_alike<F: Field, G: Field>(
    rt: &impl Abort,
    one: &F,
    other: &G,
    at: &[i32],
    expected: bool,
) -> Result<(), Fail> {
    let vertex = Vertex::new(at).ok_or("no vertex")?;
    assert_eq!(rt; alike_at(one, other, &vertex), expected);
    Ok(())
}

#[test]
fn a_blank_sample_is_like_a_missing_one(rt: HostRuntime) -> Result<(), Fail> {
    let frame = Frame::new(2, 1, &[1, 1])?;
    let blank = Table::new(frame, &[4, 5, 6, -32768]);
    let short = Table::new(frame, &[4, 5, 7]);
    is_alike(&rt, &blank, &short, &[0, 0], true)?;
    is_alike(&rt, &blank, &short, &[0, 1], false)?;
    is_alike(&rt, &blank, &short, &[1, 1], true)
}

#[test]
fn values_are_not_like_a_fault(rt: HostRuntime) -> Result<(), Fail> {
    let frame = Frame::new(2, 1, &[1, 1])?;
    let one = Table::new(frame, &[4]);
    let none = Table::new(frame, &[]);
    is_alike(&rt, &one, &none, &[0, 0], false)?;
    is_alike(&rt, &none, &one, &[0, 0], false)
}

#[test]
fn layers_over_alike_fields_are_alike(rt: HostRuntime) -> Result<(), Fail> {
    let frame = Frame::new(2, 1, &[1, 1])?;
    let blank = Level::new(Table::new(frame, &[4, -32768]), [1, 0, 0]);
    let short = Level::new(Table::new(frame, &[4]), [1, 0, 0]);
    is_alike(&rt, &blank, &short, &[0, 0], true)?;
    let blank = Window::new(blank, frame, [1, 0, 0, 0, 0, 0]);
    let short = Window::new(short, frame, [1, 0, 0, 0, 0, 0]);
    is_alike(&rt, &blank, &short, &[0, 0], true)
}
