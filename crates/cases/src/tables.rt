use crate::outcomes::{has_fault, has_rows};
use fields::{Field, Table};
use grid::{Cause, Frame};
use std::test::Fail;

#[test]
fn only_the_lowest_number_is_blank(rt: HostRuntime) -> Result<(), Fail> {
    let frame = Frame::new(2, 1, &[2, 1])?;
    let samples = [7, -32767, 32767, 0, -32768, -1];
    let table = Table::new(frame, &samples);
    has_rows(&rt, &table, &[0, 0], &[7])?;
    has_rows(&rt, &table, &[1, 0], &[-32767])?;
    has_rows(&rt, &table, &[2, 0], &[32767])?;
    has_rows(&rt, &table, &[0, 1], &[0])?;
    has_fault(&rt, &table, &[1, 1], Cause::Blank, 4, 0)?;
    has_rows(&rt, &table, &[2, 1], &[-1])
}

#[test]
fn one_blank_row_makes_its_vertex_blank(rt: HostRuntime) -> Result<(), Fail> {
    let frame = Frame::new(3, 2, &[1, 1, 1])?;
    let samples = [1, 2, -32768, 3, 4, -32768, 5, 6];
    let table = Table::new(frame, &samples);
    has_rows(&rt, &table, &[0, 0, 0], &[1, 2])?;
    has_fault(&rt, &table, &[1, 0, 0], Cause::Blank, 1, 0)?;
    has_fault(&rt, &table, &[0, 1, 0], Cause::Blank, 2, 0)?;
    has_rows(&rt, &table, &[1, 1, 0], &[5, 6])
}

#[test]
fn a_short_table_is_blank_past_its_end(rt: HostRuntime) -> Result<(), Fail> {
    let frame = Frame::new(2, 1, &[2, 1])?;
    let samples = [10, 11, 12, 13];
    let table = Table::new(frame, &samples);
    has_rows(&rt, &table, &[0, 0], &[10])?;
    has_rows(&rt, &table, &[0, 1], &[13])?;
    has_fault(&rt, &table, &[1, 1], Cause::Blank, 4, 0)?;
    has_fault(&rt, &table, &[2, 1], Cause::Blank, 5, 0)
}

#[test]
fn an_empty_table_is_blank_everywhere(rt: HostRuntime) -> Result<(), Fail> {
    let frame = Frame::new(2, 1, &[1, 1])?;
    let table = Table::new(frame, &[]);
    has_fault(&rt, &table, &[0, 0], Cause::Blank, 0, 0)?;
    has_fault(&rt, &table, &[1, 1], Cause::Blank, 3, 0)?;
    has_fault(&rt, &table, &[2, 0], Cause::Outside, 0, 0)
}

#[test]
fn a_vertex_without_its_last_sample_is_blank(rt: HostRuntime) -> Result<(), Fail> {
    let frame = Frame::new(3, 2, &[1, 1, 1])?;
    let samples = [1, 2, 3, 4, 5];
    let table = Table::new(frame, &samples);
    has_rows(&rt, &table, &[0, 0, 0], &[1, 2])?;
    has_rows(&rt, &table, &[1, 0, 0], &[3, 4])?;
    has_fault(&rt, &table, &[0, 1, 0], Cause::Blank, 2, 0)?;
    has_fault(&rt, &table, &[1, 1, 0], Cause::Blank, 3, 0)
}

#[test]
fn samples_beyond_the_box_are_not_looked_at(rt: HostRuntime) -> Result<(), Fail> {
    let frame = Frame::new(2, 1, &[1, 1])?;
    let samples = [1, 2, 3, 4, 5, 6];
    let table = Table::new(frame, &samples);
    has_rows(&rt, &table, &[1, 1], &[4])?;
    has_fault(&rt, &table, &[0, 2], Cause::Outside, 0, 0)
}

#[test]
fn axis_1_runs_fastest(rt: HostRuntime) -> Result<(), Fail> {
    let frame = Frame::new(3, 2, &[2, 1, 1])?;
    let samples = [
        0, 1, 10, 11, 20, 21, 30, 31, 40, 41, 50, 51, 60, 61, 70, 71, 80, 81, 90, 91, 100, 101,
        110, 111,
    ];
    let table = Table::new(frame, &samples);
    has_rows(&rt, &table, &[0, 0, 0], &[0, 1])?;
    has_rows(&rt, &table, &[1, 0, 0], &[10, 11])?;
    has_rows(&rt, &table, &[2, 0, 0], &[20, 21])?;
    has_rows(&rt, &table, &[0, 1, 0], &[30, 31])?;
    has_rows(&rt, &table, &[2, 1, 0], &[50, 51])?;
    has_rows(&rt, &table, &[0, 0, 1], &[60, 61])?;
    has_rows(&rt, &table, &[2, 1, 1], &[110, 111])
}

#[test]
fn outside_the_box_has_place_0(rt: HostRuntime) -> Result<(), Fail> {
    let frame = Frame::new(2, 1, &[2, 1])?;
    let samples = [0, 1, 2, 3, 4, 5];
    let table = Table::new(frame, &samples);
    assert_eq!(rt; table.height(), 0);
    assert_eq!(rt; table.frame().sides(), &[2, 1][..]);
    has_fault(&rt, &table, &[3, 0], Cause::Outside, 0, 0)?;
    has_fault(&rt, &table, &[0, 2], Cause::Outside, 0, 0)?;
    has_fault(&rt, &table, &[-1, 1], Cause::Outside, 0, 0)?;
    has_fault(&rt, &table, &[0, -2147483648], Cause::Outside, 0, 0)?;
    // another d
    has_fault(&rt, &table, &[0, 0, 0], Cause::Outside, 0, 0)
}
