use grid::{Frame, Vertex};
use std::test::Fail;

fn number(frame: &Frame, at: &[i32]) -> Option<u64> {
    let vertex = Vertex::new(at)?;
    frame.number(&vertex)
}

#[test]
fn both_ends_of_an_axis_are_in_the_box(rt: HostRuntime) -> Result<(), Fail> {
    let frame = Frame::new(2, 1, &[2, 1])?;
    assert_eq!(rt; number(&frame, &[0, 0]), Some(0));
    assert_eq!(rt; number(&frame, &[2, 0]), Some(2));
    assert_eq!(rt; number(&frame, &[0, 1]), Some(3));
    assert_eq!(rt; number(&frame, &[2, 1]), Some(5));
    assert_eq!(rt; number(&frame, &[3, 0]), None);
    assert_eq!(rt; number(&frame, &[0, 2]), None);
    assert_eq!(rt; number(&frame, &[-1, 0]), None);
    Ok(())
}

#[test]
fn another_d_is_outside(rt: HostRuntime) -> Result<(), Fail> {
    let frame = Frame::new(2, 1, &[2, 1])?;
    assert_eq!(rt; number(&frame, &[0, 0, 0]), None);
    Ok(())
}

#[test]
fn the_largest_box_has_room_for_its_numbers(rt: HostRuntime) -> Result<(), Fail> {
    let frame = Frame::new(6, 1, &[1000, 1000, 1000, 1000, 1000, 1000])?;
    let last = 1001u64 * 1001 * 1001 * 1001 * 1001 * 1001 - 1;
    assert_eq!(rt;
        number(&frame, &[1000, 1000, 1000, 1000, 1000, 1000]),
        Some(last)
    );
    assert_eq!(rt; number(&frame, &[2147483647, 0, 0, 0, 0, 0]), None);
    assert_eq!(rt; number(&frame, &[-2147483648, 0, 0, 0, 0, 0]), None);
    Ok(())
}
