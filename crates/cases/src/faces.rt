use cells::{Cell, CellRecord};
use grid::Refusal;
use std::test::Fail;

fn record(answer: Result<Cell, Refusal>) -> Result<CellRecord, Refusal> {
    answer.map(|cell| cell.record())
}

#[test]
fn facet_0_starts_at_vertex_1(rt: HostRuntime) -> Result<(), Fail> {
    let cell = Cell::new(CellRecord {
        d: 3,
        l: 2,
        base: [0; 6],
        labels: [1, 2, 2, 3, 0, 0, 0],
    })?;
    let facet = CellRecord {
        d: 3,
        l: 1,
        base: [1, 0, 0, 0, 0, 0],
        labels: [2, 1, 1, 2, 0, 0, 0],
    };
    assert_eq!(rt; record(cell.facet(0)), Ok(facet));
    assert_eq!(rt; record(cell.facet(3)), Err(Refusal::NoSuchNumber));
    assert_eq!(rt; record(cell.facet(4294967295)), Err(Refusal::NoSuchNumber));
    Ok(())
}

#[test]
fn cofacet_1_moves_its_base(rt: HostRuntime) -> Result<(), Fail> {
    let cell = Cell::new(CellRecord {
        d: 2,
        l: 1,
        base: [0, 1, 0, 0, 0, 0],
        labels: [1, 2, 2, 0, 0, 0, 0],
    })?;
    let cofacet = CellRecord {
        d: 2,
        l: 2,
        base: [0; 6],
        labels: [2, 1, 3, 0, 0, 0, 0],
    };
    assert_eq!(rt; cell.cofacets(), 2);
    assert_eq!(rt; record(cell.cofacet(1)), Ok(cofacet));
    assert_eq!(rt; record(cell.cofacet(2)), Err(Refusal::NoSuchNumber));
    assert_eq!(rt; cell.pairs(), 6);
    assert_eq!(rt; cell.pair(5), Ok((1, 2)));
    assert_eq!(rt; cell.pair(6), Err(Refusal::NoSuchNumber));
    Ok(())
}

#[test]
fn parts_have_as_many_splits_as_proper_sets(rt: HostRuntime) -> Result<(), Fail> {
    let base = [0; 6];
    let one_and_three = Cell::new(CellRecord {
        d: 3,
        l: 1,
        base,
        labels: [1, 2, 2, 2, 0, 0, 0],
    })?;
    let two_and_two = Cell::new(CellRecord {
        d: 3,
        l: 1,
        base,
        labels: [1, 2, 1, 2, 0, 0, 0],
    })?;
    assert_eq!(rt; one_and_three.cofacets(), 6);
    assert_eq!(rt; two_and_two.cofacets(), 4);
    Ok(())
}

#[test]
fn a_cofacet_may_leave_the_world_at_both_ends(rt: HostRuntime) -> Result<(), Fail> {
    let labels = [1, 1, 1, 0, 0, 0, 0];
    let high = Cell::new(CellRecord {
        d: 2,
        l: 0,
        base: [10_000, 0, 0, 0, 0, 0],
        labels,
    })?;
    let low = Cell::new(CellRecord {
        d: 2,
        l: 0,
        base: [-10_000, 0, 0, 0, 0, 0],
        labels,
    })?;
    assert_eq!(rt; record(high.cofacet(0)), Err(Refusal::LeavesTheWorld));
    assert_eq!(rt; record(low.cofacet(5)), Err(Refusal::LeavesTheWorld));
    assert_eq!(rt; record(low.cofacet(6)), Err(Refusal::NoSuchNumber));
    Ok(())
}
