use crate::outcomes::{has_fault, has_rows};
use fields::{Field, Level, Table, Window};
use grid::{Cause, Frame};
use std::test::Fail;

#[test]
fn a_level_is_subtracted_and_may_leave_the_scale(rt: HostRuntime) -> Result<(), Fail> {
    let frame = Frame::new(2, 1, &[2, 1])?;
    let samples = [7, -32767, 32767, 0, -32766, -1];
    let level = Level::new(Table::new(frame, &samples), [1, 0, 0]);
    assert_eq!(rt; level.height(), 1);
    assert_eq!(rt; level.frame().sides(), &[2, 1][..]);
    has_rows(&rt, &level, &[0, 0], &[6])?;
    has_fault(&rt, &level, &[1, 0], Cause::OffScale, 1, 1)?;
    has_rows(&rt, &level, &[2, 0], &[32766])?;
    has_rows(&rt, &level, &[1, 1], &[-32767])?;
    has_rows(&rt, &level, &[2, 1], &[-2])?;
    has_fault(&rt, &level, &[3, 0], Cause::Outside, 0, 1)?;
    // another d
    has_fault(&rt, &level, &[0, 0, 0], Cause::Outside, 0, 1)
}

#[test]
fn a_negative_level_is_subtracted(rt: HostRuntime) -> Result<(), Fail> {
    let frame = Frame::new(2, 1, &[1, 1])?;
    let samples = [-1, 0, -32767, 32767];
    let level = Level::new(Table::new(frame, &samples), [-32768, 0, 0]);
    has_rows(&rt, &level, &[0, 0], &[32767])?;
    has_fault(&rt, &level, &[1, 0], Cause::OffScale, 1, 1)?;
    has_rows(&rt, &level, &[0, 1], &[1])?;
    has_fault(&rt, &level, &[1, 1], Cause::OffScale, 3, 1)
}

#[test]
fn each_row_has_its_own_level(rt: HostRuntime) -> Result<(), Fail> {
    let frame = Frame::new(3, 2, &[1, 1, 1])?;
    let samples = [100, 200, -32767, 0, 0, 32767, 1, 2, 3, 4];
    let level = Level::new(Table::new(frame, &samples), [10, -20, -32768]);
    has_rows(&rt, &level, &[0, 0, 0], &[90, 220])?;
    // row 1
    has_fault(&rt, &level, &[1, 0, 0], Cause::OffScale, 1, 1)?;
    // row 2
    has_fault(&rt, &level, &[0, 1, 0], Cause::OffScale, 2, 1)?;
    has_rows(&rt, &level, &[0, 0, 1], &[-7, 24])
}

#[test]
fn levels_beyond_k_are_not_looked_at(rt: HostRuntime) -> Result<(), Fail> {
    let frame = Frame::new(2, 1, &[1, 1])?;
    let samples = [32767, -32767, 0, 1];
    let level = Level::new(Table::new(frame, &samples), [0, -32768, 32767]);
    has_rows(&rt, &level, &[0, 0], &[32767])?;
    has_rows(&rt, &level, &[1, 0], &[-32767])
}

#[test]
fn a_fault_from_below_goes_up_as_it_is(rt: HostRuntime) -> Result<(), Fail> {
    let frame = Frame::new(2, 1, &[2, 1])?;
    let own = Frame::new(2, 1, &[1, 1])?;
    let samples = [0, 1, 2, 3, -32768];
    let table = Table::new(frame, &samples);
    let level = Level::new(&table, [-5, 0, 0]);
    has_fault(&rt, &level, &[1, 1], Cause::Blank, 4, 0)?;
    has_fault(&rt, &level, &[2, 1], Cause::Blank, 5, 0)?;
    let window = Window::new(&table, own, [1, 0, 0, 0, 0, 0]);
    // its place in the table's box
    has_fault(&rt, &window, &[0, 1], Cause::Blank, 4, 0)
}

#[test]
fn a_corner_is_added(rt: HostRuntime) -> Result<(), Fail> {
    let frame = Frame::new(2, 1, &[3, 2])?;
    let own = Frame::new(2, 1, &[1, 1])?;
    let samples = [0, 1, 2, 3, 10, 11, 12, 13, 20, 21, 22, 23];
    let corner = [2, 1, 65535, 65535, 65535, 65535];
    let window = Window::new(Table::new(frame, &samples), own, corner);
    assert_eq!(rt; window.height(), 1);
    assert_eq!(rt; window.frame().sides(), &[1, 1][..]);
    has_rows(&rt, &window, &[0, 0], &[12])?;
    has_rows(&rt, &window, &[1, 0], &[13])?;
    has_rows(&rt, &window, &[0, 1], &[22])?;
    has_rows(&rt, &window, &[1, 1], &[23])?;
    has_fault(&rt, &window, &[2, 0], Cause::Outside, 0, 1)?;
    // in the box below
    has_fault(&rt, &window, &[-1, 0], Cause::Outside, 0, 1)?;
    // another d
    has_fault(&rt, &window, &[0, 0, 0], Cause::Outside, 0, 1)
}

#[test]
fn sides_beyond_the_axes_below_are_cut(rt: HostRuntime) -> Result<(), Fail> {
    let frame = Frame::new(2, 1, &[3, 2])?;
    let own = Frame::new(4, 3, &[2, 1, 5, 6])?;
    let samples = [0, 1, 2, 3, 10, 11, 12, 13, 20, 21, 22, 23];
    let window = Window::new(Table::new(frame, &samples), own, [1, 1, 0, 0, 0, 0]);
    assert_eq!(rt; window.frame().d(), 2);
    assert_eq!(rt; window.frame().k(), 1);
    assert_eq!(rt; window.frame().sides(), &[2, 1][..]);
    has_rows(&rt, &window, &[2, 1], &[23])?;
    has_fault(&rt, &window, &[0, 0, 0, 0], Cause::Outside, 0, 1)
}

#[test]
fn missing_sides_are_1(rt: HostRuntime) -> Result<(), Fail> {
    let frame = Frame::new(3, 2, &[1, 1, 2])?;
    let own = Frame::new(2, 1, &[1, 1])?;
    let samples = [0, 0, 1, 1, 2, 2, 3, 3, 4, 40, 5, 50, 6, 60, 7, 70];
    let window = Window::new(Table::new(frame, &samples), own, [0, 0, 1, 0, 0, 0]);
    assert_eq!(rt; window.frame().d(), 3);
    assert_eq!(rt; window.frame().k(), 2);
    assert_eq!(rt; window.frame().sides(), &[1, 1, 1][..]);
    has_rows(&rt, &window, &[0, 0, 0], &[4, 40])?;
    has_rows(&rt, &window, &[1, 1, 0], &[7, 70])?;
    has_fault(&rt, &window, &[0, 0, 1], Cause::Blank, 8, 0)?;
    has_fault(&rt, &window, &[0, 0, 2], Cause::Outside, 0, 1)?;
    // the d of its own frame
    has_fault(&rt, &window, &[0, 0], Cause::Outside, 0, 1)
}

#[test]
fn a_window_may_hang_over_the_edge(rt: HostRuntime) -> Result<(), Fail> {
    let frame = Frame::new(2, 1, &[3, 2])?;
    let own = Frame::new(2, 1, &[2, 2])?;
    let samples = [0, 1, 2, 3, 10, 11, 12, 13, 20, 21, 22, 23];
    let table = Table::new(frame, &samples);
    let window = Window::new(&table, own, [2, 1, 0, 0, 0, 0]);
    has_rows(&rt, &window, &[1, 1], &[23])?;
    // 4 1 below
    has_fault(&rt, &window, &[2, 0], Cause::Outside, 0, 0)?;
    // 2 3 below
    has_fault(&rt, &window, &[0, 2], Cause::Outside, 0, 0)?;
    has_fault(&rt, &window, &[3, 0], Cause::Outside, 0, 1)?;
    let level = Level::new(&table, [0; 3]);
    let over = Window::new(&level, own, [2, 1, 0, 0, 0, 0]);
    // outside the level
    has_fault(&rt, &over, &[2, 0], Cause::Outside, 0, 1)?;
    has_fault(&rt, &over, &[3, 0], Cause::Outside, 0, 2)?;
    let far = Window::new(&table, own, [65535; 6]);
    has_fault(&rt, &far, &[2, 2], Cause::Outside, 0, 0)
}

#[test]
fn a_pile_tells_the_height_of_each_fault(rt: HostRuntime) -> Result<(), Fail> {
    let frame = Frame::new(2, 1, &[3, 1])?;
    let own = Frame::new(2, 1, &[2, 1])?;
    let samples = [0, 100, -32768, -32767, 1, -32765, 32767, -32764];
    let inner = Level::new(Table::new(frame, &samples), [1, 0, 0]);
    let window = Window::new(inner, own, [1, 0, 0, 0, 0, 0]);
    let pile = Level::new(window, [2, 0, 0]);
    assert_eq!(rt; pile.height(), 3);
    assert_eq!(rt; pile.frame().sides(), &[2, 1][..]);
    has_rows(&rt, &pile, &[0, 0], &[97])?;
    has_fault(&rt, &pile, &[1, 0], Cause::Blank, 2, 0)?;
    has_fault(&rt, &pile, &[2, 0], Cause::OffScale, 3, 1)?;
    has_fault(&rt, &pile, &[0, 1], Cause::OffScale, 3, 3)?;
    has_rows(&rt, &pile, &[1, 1], &[32764])?;
    has_rows(&rt, &pile, &[2, 1], &[-32767])?;
    has_fault(&rt, &pile, &[3, 0], Cause::Outside, 0, 3)?;
    // another d
    has_fault(&rt, &pile, &[0, 0, 0], Cause::Outside, 0, 3)
}

#[test]
fn a_lent_field_is_no_layer(rt: HostRuntime) -> Result<(), Fail> {
    let frame = Frame::new(2, 1, &[2, 1])?;
    let samples = [5, 6, 7, 8, 9];
    let table = Table::new(frame, &samples);
    let lent = &table;
    assert_eq!(rt; (&lent).height(), 0);
    has_rows(&rt, &lent, &[1, 0], &[6])?;
    has_fault(&rt, &lent, &[2, 1], Cause::Blank, 5, 0)?;
    let level = Level::new(&table, [5, 0, 0]);
    assert_eq!(rt; level.height(), 1);
    has_rows(&rt, &level, &[1, 0], &[1])?;
    has_fault(&rt, &level, &[3, 0], Cause::Outside, 0, 1)?;
    has_rows(&rt, &table, &[1, 0], &[6])?;
    has_fault(&rt, &table, &[3, 0], Cause::Outside, 0, 0)
}
