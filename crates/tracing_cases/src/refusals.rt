// What step refuses: neither the trace nor the list changes, and the pair does not count.
use crate::setting::{
    EMPTY, answer, edge_record, numbers, table_of, worked_road, worked_seed, worked_table,
};
use cells::{Cell, CellRecord};
use fields::{Field, Level, Table};
use grid::{Cause, Fault, Frame, Refusal};
use std::process::Abort;
use std::test::Fail;
use tracing::{Ending, Trace};

fn is_refused<F: Field>(
    rt: &impl Abort,
    trace: &mut Trace,
    field: &F,
    list: &mut [CellRecord; 5],
    refusal: Refusal,
) -> Result<(), Fail> {
    let before = trace.report();
    let kept = *list;
    assert_eq!(rt; trace.step(field, list, 1000), answer(0, Err(refusal)));
    assert_eq!(rt; trace.report(), before);
    assert_eq!(rt; *list, kept);
    Ok(())
}

// Planted over the worked seed, a trace stops at the first cell that is tested, and a field with all values goes on from there.
fn stops_at_pair_4<F: Field, G: Field>(
    rt: &impl Abort,
    stopping: &F,
    whole: &G,
    refusal: Refusal,
) -> Result<(), Fail> {
    let seed = worked_seed()?;
    let mut list = [EMPTY; 5];
    let mut trace = Trace::plant(stopping, &seed, &mut list)?;
    assert_eq!(rt;
        trace.step(stopping, &mut list, 1000),
        answer(4, Err(refusal))
    );
    assert_eq!(rt; trace.report(), numbers(1, 0, 4, 4));
    is_refused(rt, &mut trace, stopping, &mut list, refusal)?;
    assert_eq!(rt; list[0], worked_road()[0]);
    assert_eq!(rt; list[1], EMPTY);
    assert_eq!(rt;
        trace.step(whole, &mut list, 1000),
        answer(26, Ok(Ending::Finished))
    );
    assert_eq!(rt; list, worked_road());
    Ok(())
}

#[test]
fn a_fault_at_a_tested_cell_is_told(rt: HostRuntime) -> Result<(), Fail> {
    let samples = [-32768, -1, 1, -1, 1, 3];
    let whole = [-3, -1, 1, -1, 1, 3];
    let fault = Fault {
        cause: Cause::Blank,
        place: 0,
        height: 0,
    };
    stops_at_pair_4(
        &rt,
        &table_of(&samples)?,
        &table_of(&whole)?,
        Refusal::Faulty(fault),
    )
}

#[test]
fn a_fault_of_a_layer_is_told_with_its_height(rt: HostRuntime) -> Result<(), Fail> {
    let samples = [-32767, 0, 2, 0, 2, 4];
    let whole = [-3, -1, 1, -1, 1, 3];
    let fault = Fault {
        cause: Cause::OffScale,
        place: 0,
        height: 1,
    };
    stops_at_pair_4(
        &rt,
        &Level::new(table_of(&samples)?, [1, 0, 0]),
        &table_of(&whole)?,
        Refusal::Faulty(fault),
    )
}

#[test]
fn a_degenerate_cell_is_refused(rt: HostRuntime) -> Result<(), Fail> {
    let samples = [0, -1, 1, -1, 1, 3];
    let whole = [-3, -1, 1, -1, 1, 3];
    stops_at_pair_4(
        &rt,
        &table_of(&samples)?,
        &table_of(&whole)?,
        Refusal::Degenerate,
    )
}

#[test]
fn a_short_list_is_refused_whatever_the_budget(rt: HostRuntime) -> Result<(), Fail> {
    let table = worked_table()?;
    let seed = worked_seed()?;
    let mut list = [EMPTY; 5];
    let mut trace = Trace::plant(&table, &seed, &mut list)?;
    assert_eq!(rt; trace.step(&table, &mut list, 5).taken, 5);
    assert_eq!(rt; trace.report(), numbers(2, 0, 5, 5));
    let mut short = [list[0]];
    let refused = answer(0, Err(Refusal::NotThisList));
    assert_eq!(rt; trace.step(&table, &mut short, 0), refused);
    assert_eq!(rt; trace.step(&table, &mut short, 1000), refused);
    assert_eq!(rt; trace.report(), numbers(2, 0, 5, 5));
    assert_eq!(rt; short, [list[0]]);
    Ok(())
}

#[test]
fn a_finished_trace_refuses_a_short_list_and_looks_at_nothing_else(
    rt: HostRuntime,
) -> Result<(), Fail> {
    let table = worked_table()?;
    let seed = worked_seed()?;
    let mut list = [EMPTY; 5];
    let mut trace = Trace::plant(&table, &seed, &mut list)?;
    assert_eq!(rt; trace.step(&table, &mut list, 30).taken, 30);
    let mut short = [EMPTY; 4];
    let refused = answer(0, Err(Refusal::NotThisList));
    assert_eq!(rt; trace.step(&table, &mut short, 0), refused);
    assert_eq!(rt; trace.step(&table, &mut short, 1000), refused);
    assert_eq!(rt; short, [EMPTY; 4]);
    assert_eq!(rt; trace.report(), numbers(5, 5, 0, 30));
    let finished = answer(0, Ok(Ending::Finished));
    let none = table_of(&[])?;
    assert_eq!(rt; trace.step(&none, &mut [EMPTY; 5], 1000), finished);
    Ok(())
}

#[test]
fn a_record_that_does_not_fit_is_refused_at_place_next(rt: HostRuntime) -> Result<(), Fail> {
    let table = worked_table()?;
    let seed = worked_seed()?;
    let mut list = [EMPTY; 5];
    let mut trace = Trace::plant(&table, &seed, &mut list)?;
    assert_eq!(rt; trace.step(&table, &mut list, 6).taken, 6);
    assert_eq!(rt; trace.report(), numbers(2, 1, 0, 6));
    list[1] = EMPTY;
    is_refused(&rt, &mut trace, &table, &mut list, Refusal::DoesNotFit)?;
    let spent = answer(0, Ok(Ending::Spent));
    assert_eq!(rt; trace.step(&table, &mut list, 0), spent);
    list[1] = edge_record(2, 1, [1, 2, 2]);
    // outside the box
    is_refused(&rt, &mut trace, &table, &mut list, Refusal::DoesNotFit)?;
    list[1] = worked_road()[1];
    assert_eq!(rt; trace.step(&table, &mut list, 1000).taken, 24);
    Ok(())
}

fn cube_edge(labels: [u8; 7]) -> CellRecord {
    CellRecord {
        d: 3,
        l: 1,
        base: [0; 6],
        labels,
    }
}

#[test]
fn a_pair_that_the_cell_does_not_have_is_refused(rt: HostRuntime) -> Result<(), Fail> {
    let frame = Frame::new(3, 1, &[1, 1, 1])?;
    let table = Table::new(frame, &[-1, 1, 1, 1, 1, 1, 1, 1]);
    let seed = Cell::new(cube_edge([1, 2, 2, 2, 0, 0, 0]))?;
    let mut list = [EMPTY; 5];
    let mut trace = Trace::plant(&table, &seed, &mut list)?;
    assert_eq!(rt; seed.pairs(), 18);
    assert_eq!(rt; trace.step(&table, &mut list, 12).taken, 12);
    let other = Cell::new(cube_edge([1, 1, 2, 2, 0, 0, 0]))?;
    assert_eq!(rt; other.pairs(), 12);
    list[0] = other.record();
    is_refused(&rt, &mut trace, &table, &mut list, Refusal::NotThisList)?;
    list[0] = seed.record();
    assert_eq!(rt; trace.step(&table, &mut list, 1).taken, 1);
    Ok(())
}
