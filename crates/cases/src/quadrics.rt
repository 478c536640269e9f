use crate::outcomes::{has_fault, has_rows};
use fields::{Field, Quadric, Row};
use grid::{Cause, Frame};
use std::test::Fail;

const NOTHING: Row = Row {
    constant: 0,
    linear: [0; 6],
    square: [0; 6],
};

const LARGE: Row = Row {
    constant: 32767,
    linear: [32767; 6],
    square: [32767; 6],
};

#[test]
fn the_ends_of_the_scale_are_values(rt: HostRuntime) -> Result<(), Fail> {
    let frame = Frame::new(3, 2, &[1, 1, 1])?;
    let up = Row {
        constant: 32766,
        linear: [1, 1, 0, 0, 0, 0],
        square: [0; 6],
    };
    let down = Row {
        constant: -32766,
        linear: [-1, 0, -1, 0, 0, 0],
        square: [0; 6],
    };
    let quadric = Quadric::new(frame, [up, down, NOTHING]);
    has_rows(&rt, &quadric, &[0, 0, 0], &[32766, -32766])?;
    has_rows(&rt, &quadric, &[1, 0, 0], &[32767, -32767])?;
    // 32768 in row 1
    has_fault(&rt, &quadric, &[1, 1, 0], Cause::OffScale, 3, 0)?;
    // -32768 in row 2
    has_fault(&rt, &quadric, &[1, 0, 1], Cause::OffScale, 5, 0)?;
    has_rows(&rt, &quadric, &[0, 1, 1], &[32767, -32767])?;
    // both rows
    has_fault(&rt, &quadric, &[1, 1, 1], Cause::OffScale, 7, 0)
}

#[test]
fn a_constant_may_be_off_scale(rt: HostRuntime) -> Result<(), Fail> {
    let frame = Frame::new(2, 1, &[2, 1])?;
    let row = Row {
        constant: -32768,
        linear: [0, 1, 0, 0, 0, 0],
        square: [0; 6],
    };
    let quadric = Quadric::new(frame, [row, NOTHING, NOTHING]);
    has_fault(&rt, &quadric, &[0, 0], Cause::OffScale, 0, 0)?;
    has_fault(&rt, &quadric, &[2, 0], Cause::OffScale, 2, 0)?;
    has_rows(&rt, &quadric, &[2, 1], &[-32767])
}

#[test]
fn squares_are_of_the_coordinate_alone(rt: HostRuntime) -> Result<(), Fail> {
    let frame = Frame::new(2, 1, &[1000, 4])?;
    let row = Row {
        constant: 5,
        linear: [-2, 1, 0, 0, 0, 0],
        square: [3, -10, 0, 0, 0, 0],
    };
    let quadric = Quadric::new(frame, [row, NOTHING, NOTHING]);
    has_rows(&rt, &quadric, &[0, 0], &[5])?;
    has_rows(&rt, &quadric, &[3, 0], &[26])?;
    has_rows(&rt, &quadric, &[0, 4], &[-151])?;
    has_rows(&rt, &quadric, &[7, 3], &[51])?;
    has_rows(&rt, &quadric, &[104, 0], &[32245])?;
    has_fault(&rt, &quadric, &[105, 0], Cause::OffScale, 105, 0)?;
    has_fault(&rt, &quadric, &[1000, 4], Cause::OffScale, 5004, 0)
}

#[test]
fn large_parts_may_cancel(rt: HostRuntime) -> Result<(), Fail> {
    let frame = Frame::new(2, 1, &[1000, 1000])?;
    let row = Row {
        constant: 9,
        linear: [0; 6],
        square: [32767, -32767, 0, 0, 0, 0],
    };
    let quadric = Quadric::new(frame, [row, NOTHING, NOTHING]);
    has_rows(&rt, &quadric, &[1000, 1000], &[9])?;
    has_fault(&rt, &quadric, &[1000, 999], Cause::OffScale, 1000999, 0)
}

#[test]
fn rows_beyond_k_are_not_looked_at(rt: HostRuntime) -> Result<(), Fail> {
    let frame = Frame::new(3, 2, &[9, 9, 9])?;
    let row = Row {
        constant: 1,
        linear: [1, 10, 100, 0, 0, 0],
        square: [0; 6],
    };
    let quadric = Quadric::new(frame, [row, NOTHING, LARGE]);
    has_rows(&rt, &quadric, &[2, 3, 4], &[433, 0])?;
    has_rows(&rt, &quadric, &[9, 9, 9], &[1000, 0])
}

#[test]
fn axes_beyond_d_are_not_looked_at(rt: HostRuntime) -> Result<(), Fail> {
    let frame = Frame::new(2, 1, &[9, 9])?;
    let row = Row {
        constant: 1,
        linear: [1, 10, 32767, -32768, 32767, 32767],
        square: [0, 0, 32767, 32767, -32768, 32767],
    };
    let quadric = Quadric::new(frame, [row, LARGE, LARGE]);
    has_rows(&rt, &quadric, &[2, 3], &[33])?;
    has_rows(&rt, &quadric, &[9, 9], &[100])
}

#[test]
fn outside_its_box_a_quadric_has_no_values(rt: HostRuntime) -> Result<(), Fail> {
    let frame = Frame::new(2, 1, &[2, 1])?;
    let quadric = Quadric::new(frame, [NOTHING, LARGE, LARGE]);
    assert_eq!(rt; quadric.height(), 0);
    has_rows(&rt, &quadric, &[2, 1], &[0])?;
    has_fault(&rt, &quadric, &[3, 1], Cause::Outside, 0, 0)?;
    has_fault(&rt, &quadric, &[2, -1], Cause::Outside, 0, 0)?;
    // another d
    has_fault(&rt, &quadric, &[0, 0, 0], Cause::Outside, 0, 0)
}

#[test]
fn the_largest_sum_is_off_scale(rt: HostRuntime) -> Result<(), Fail> {
    let frame = Frame::new(6, 3, &[1000, 1000, 1000, 1000, 1000, 1000])?;
    let quadric = Quadric::new(frame, [LARGE, LARGE, LARGE]);
    let last = 1001u64 * 1001 * 1001 * 1001 * 1001 * 1001 - 1;
    let corner = [1000; 6];
    has_fault(&rt, &quadric, &corner, Cause::OffScale, last, 0)?;
    has_rows(&rt, &quadric, &[0; 6], &[32767, 32767, 32767])
}

#[test]
fn the_least_sum_is_off_scale(rt: HostRuntime) -> Result<(), Fail> {
    let frame = Frame::new(6, 1, &[1000, 1000, 1000, 1000, 1000, 1000])?;
    let row = Row {
        constant: -32768,
        linear: [-32768; 6],
        square: [-32768; 6],
    };
    let quadric = Quadric::new(frame, [row, LARGE, LARGE]);
    let last = 1001u64 * 1001 * 1001 * 1001 * 1001 * 1001 - 1;
    has_fault(&rt, &quadric, &[1000; 6], Cause::OffScale, last, 0)
}
