// What plant refuses.
use crate::setting::{EMPTY, edge_record, table_of, worked_road, worked_seed, worked_table};
use cells::{Cell, CellRecord};
use fields::{Field, Table};
use grid::{Cause, Fault, Frame, Refusal};
use std::process::Abort;
use std::test::Fail;
use tracing::Trace;

// Planting is refused, and the list is as it was. What a test says stands as parameters, as in the other tests.
fn is_refused<F: Field>(
    rt: &impl Abort,
    field: &F,
    plain: CellRecord,
    refusal: Refusal,
) -> Result<(), Fail> {
    let seed = Cell::new(plain)?;
    let old = edge_record(7, 7, [2, 1, 2]);
    let mut list = [old; 2];
    assert_eq!(rt; Trace::plant(field, &seed, &mut list).err(), Some(refusal));
    assert_eq!(rt; list, [old; 2]);
    Ok(())
}

#[test]
fn an_empty_list_is_refused_before_all_else(rt: HostRuntime) -> Result<(), Fail> {
    let frame = Frame::new(3, 2, &[1, 1, 1])?;
    let seed = worked_seed()?;
    let mut list = [EMPTY; 0];
    assert_eq!(rt;
        Trace::plant(&Table::new(frame, &[]), &seed, &mut list).err(),
        Some(Refusal::EmptyList)
    );
    Ok(())
}

#[test]
fn a_seed_that_does_not_fit_is_refused_before_its_fault(rt: HostRuntime) -> Result<(), Fail> {
    is_refused(
        &rt,
        &table_of(&[])?,
        edge_record(2, 1, [1, 2, 2]),
        Refusal::DoesNotFit,
    )
}

#[test]
fn the_first_fault_of_the_seed_is_told(rt: HostRuntime) -> Result<(), Fail> {
    let samples = [-3, -1, 1, -32768, -32768, 3];
    let fault = Fault {
        cause: Cause::Blank,
        place: 3,
        height: 0,
    };
    is_refused(
        &rt,
        &table_of(&samples)?,
        worked_road()[0],
        Refusal::Faulty(fault),
    )
}

#[test]
fn a_degenerate_seed_is_refused(rt: HostRuntime) -> Result<(), Fail> {
    let samples = [-3, -1, 1, -1, 0, 3];
    is_refused(
        &rt,
        &table_of(&samples)?,
        worked_road()[0],
        Refusal::Degenerate,
    )
}

#[test]
fn a_clear_seed_is_refused(rt: HostRuntime) -> Result<(), Fail> {
    is_refused(
        &rt,
        &worked_table()?,
        edge_record(0, 0, [1, 2, 2]),
        Refusal::ClearSeed,
    )
}
