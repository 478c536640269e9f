use grid::{Frame, Refusal};
use std::test::Fail;

const NOT_A_FRAME: Option<Refusal> = Some(Refusal::NotAFrame);

fn refusal(d: u8, k: u8, sides: &[u16]) -> Option<Refusal> {
    Frame::new(d, k, sides).err()
}

#[test]
fn axes_are_2_to_6(rt: HostRuntime) {
    assert_eq!(rt; refusal(1, 1, &[1]), NOT_A_FRAME);
    assert_eq!(rt; refusal(2, 1, &[1, 1]), None);
    assert_eq!(rt; refusal(6, 1, &[1, 1, 1, 1, 1, 1]), None);
    assert_eq!(rt; refusal(7, 1, &[1, 1, 1, 1, 1, 1, 1]), NOT_A_FRAME);
}

#[test]
fn rows_are_1_to_3_and_below_the_axes(rt: HostRuntime) {
    assert_eq!(rt; refusal(2, 0, &[1, 1]), NOT_A_FRAME);
    assert_eq!(rt; refusal(2, 2, &[1, 1]), NOT_A_FRAME);
    assert_eq!(rt; refusal(3, 2, &[1, 1, 1]), None);
    assert_eq!(rt; refusal(4, 3, &[1, 1, 1, 1]), None);
    assert_eq!(rt; refusal(6, 4, &[1, 1, 1, 1, 1, 1]), NOT_A_FRAME);
}

#[test]
fn sides_are_1_to_1000(rt: HostRuntime) {
    assert_eq!(rt; refusal(2, 1, &[0, 1]), NOT_A_FRAME);
    assert_eq!(rt; refusal(2, 1, &[1000, 1]), None);
    assert_eq!(rt; refusal(2, 1, &[1, 1001]), NOT_A_FRAME);
    assert_eq!(rt; refusal(2, 1, &[65535, 1]), NOT_A_FRAME);
}

#[test]
fn each_axis_has_one_side(rt: HostRuntime) {
    assert_eq!(rt; refusal(2, 1, &[1]), NOT_A_FRAME);
    assert_eq!(rt; refusal(2, 1, &[1, 1, 1]), NOT_A_FRAME);
    assert_eq!(rt; refusal(2, 1, &[]), NOT_A_FRAME);
}

#[test]
fn a_frame_shows_its_numbers(rt: HostRuntime) -> Result<(), Fail> {
    let frame = Frame::new(3, 2, &[4, 5, 6])?;
    assert_eq!(rt; frame.d(), 3);
    assert_eq!(rt; frame.k(), 2);
    assert_eq!(rt; frame.sides(), &[4, 5, 6][..]);
    Ok(())
}

#[test]
fn a_frame_takes_the_sides_of_another(rt: HostRuntime) -> Result<(), Fail> {
    let small = Frame::new(2, 1, &[4, 5])?;
    let large = Frame::new(4, 2, &[6, 7, 8, 9])?;
    assert_eq!(rt; small.with_sides_of(&large).sides(), &[6, 7][..]);
    assert_eq!(rt; large.with_sides_of(&small).sides(), &[4, 5, 1, 1][..]);
    assert_eq!(rt; large.with_sides_of(&small).k(), 2);
    Ok(())
}
