// Roads from planting to sealing, in other dimensions than the worked one.
use crate::setting::EMPTY;
use cells::{Cell, CellRecord};
use crossing::lies_in;
use fields::{Field, Quadric, Row, Table};
use grid::{Frame, Refusal};
use std::process::Abort;
use std::test::Fail;
use tracing::{Ending, Trace};

// Other crates of tests write such rows too, since none can be imported; and a cell of an edge likewise.
const NO_ROW: Row = Row {
    constant: 0,
    linear: [0; 6],
    square: [0; 6],
};

static SURFACE: [[i16; 9]; 5] = [
    [2, -2, 9, 7, 1, 5, 6, 8, 2],
    [-6, 8, 4, 9, 1, -9, 2, 3, 1],
    [6, 9, 2, 8, 6, 7, 8, 4, 5],
    [2, 5, 6, 5, 7, 1, 3, 7, 7],
    [5, 9, 9, -4, 9, 8, 6, 9, 4],
];

static THREE_ROWS: [[i16; 9]; 16] = [
    [1, 2, 4, -4, -4, -1, 4, -1, -3],
    [2, -3, 2, -3, 0, -3, -4, -3, 2],
    [-4, 2, -3, 1, 1, -3, -4, -4, -3],
    [-1, 1, -4, -1, -2, 4, -4, -3, 0],
    [4, 0, 4, -2, 0, 1, -4, 3, 3],
    [-1, -1, 1, 2, -1, 1, -1, -4, -2],
    [-4, -2, 4, 1, 0, 4, -1, 4, -3],
    [-2, -2, 2, 4, 3, -1, 2, -4, 3],
    [-1, 3, -3, 2, 3, -2, 4, -2, -1],
    [0, 4, 3, 3, -1, 2, 3, -3, 3],
    [-4, -4, 0, 4, -3, 1, -4, 4, -2],
    [0, 3, -3, 3, -2, 2, 3, 1, 1],
    [4, -2, -3, 1, -2, 4, 3, 1, -3],
    [-2, -1, -3, 1, -4, -3, 1, 0, -1],
    [-4, 1, 1, 1, -2, -4, -4, -2, -4],
    [3, 2, -4, -2, 1, -2, 0, -4, 2],
];

// The pairs of the first `count` cells.
fn summed_pairs(list: &[CellRecord], count: usize) -> Result<u32, Refusal> {
    let mut sum = 0u32;
    for plain in list.iter().take(count) {
        sum = sum.saturating_add(Cell::new(*plain)?.pairs());
    }
    Ok(sum)
}

// Lists the road of a seed to the end, and seals it: so many cells, and as many steps as these have pairs. What a test says stands
// as parameters: a struct of them would be written out at each call.
fn has_road<F: Field>(
    rt: &impl Abort,
    field: &F,
    plain: CellRecord,
    list: &mut [CellRecord],
    count: usize,
    steps: u32,
) -> Result<(), Fail> {
    let seed = Cell::new(plain)?;
    let mut trace = Trace::plant(field, &seed, list)?;
    let stepping = trace.step(field, list, 100_000);
    assert_eq!(rt; stepping.ending, Ok(Ending::Finished));
    let sealed = trace.seal().map_err(|unsealed| unsealed.refusal)?;
    assert_eq!(rt; sealed.count(), count);
    assert_eq!(rt; sealed.steps(), steps);
    assert_eq!(rt; stepping.taken, steps);
    assert_eq!(rt; summed_pairs(list, count)?, steps);
    Ok(())
}

fn has_inside(rt: &impl Abort, frame: &Frame, listed: &Cell, number: u32) -> Result<(), Fail> {
    assert!(rt; lies_in(frame, &listed.cofacet(number)?));
    Ok(())
}

// Both cofacets of each of the first `count` cells lie in the box.
fn stays_inside(
    rt: &impl Abort,
    frame: &Frame,
    list: &[CellRecord],
    count: usize,
) -> Result<(), Fail> {
    for plain in list.iter().take(count) {
        let listed = Cell::new(*plain)?;
        assert_eq!(rt; listed.cofacets(), 2);
        has_inside(rt, frame, &listed, 0)?;
        has_inside(rt, frame, &listed, 1)?;
    }
    Ok(())
}

#[test]
fn a_ring_in_three_axes_has_ten_cells_and_stays_inside(rt: HostRuntime) -> Result<(), Fail> {
    let frame = Frame::new(3, 2, &[4, 4, 2])?;
    let ring = Row {
        constant: 15,
        linear: [-8, -8, 0, 0, 0, 0],
        square: [2, 2, 0, 0, 0, 0],
    };
    let plane = Row {
        constant: -1,
        linear: [0, 0, 3, 0, 0, 0],
        square: [0; 6],
    };
    let seed = CellRecord {
        d: 3,
        l: 2,
        base: [1, 1, 0, 0, 0, 0],
        labels: [1, 1, 2, 3, 0, 0, 0],
    };
    let mut list = [EMPTY; 12];
    has_road(
        &rt,
        &Quadric::new(frame, [ring, plane, NO_ROW]),
        seed,
        &mut list,
        10,
        80,
    )?;
    stays_inside(&rt, &frame, &list, 10)
}

#[test]
fn a_surface_in_three_axes_has_four_cells(rt: HostRuntime) -> Result<(), Fail> {
    let frame = Frame::new(3, 1, &[2, 4, 2])?;
    let seed = CellRecord {
        d: 3,
        l: 1,
        base: [1, 3, 0, 0, 0, 0],
        labels: [1, 1, 2, 2, 0, 0, 0],
    };
    let samples = SURFACE.as_flattened();
    let mut list = [EMPTY; 6];
    has_road(&rt, &Table::new(frame, samples), seed, &mut list, 4, 66)
}

#[test]
fn a_surface_around_a_vertex_in_four_axes_has_the_30_edges_there(
    rt: HostRuntime,
) -> Result<(), Fail> {
    let frame = Frame::new(4, 1, &[2, 2, 2, 2])?;
    let ball = Row {
        constant: 15,
        linear: [-8; 6],
        square: [4; 6],
    };
    let seed = CellRecord {
        d: 4,
        l: 1,
        base: [1, 1, 1, 1, 0, 0],
        labels: [1, 2, 2, 2, 2, 0, 0],
    };
    let mut list = [EMPTY; 32];
    has_road(
        &rt,
        &Quadric::new(frame, [ball, NO_ROW, NO_ROW]),
        seed,
        &mut list,
        30,
        900,
    )
}

#[test]
fn a_road_of_three_rows_in_four_axes_has_four_cells(rt: HostRuntime) -> Result<(), Fail> {
    let frame = Frame::new(4, 3, &[2, 1, 3, 1])?;
    let seed = CellRecord {
        d: 4,
        l: 3,
        base: [1, 0, 1, 0, 0, 0],
        labels: [3, 4, 1, 2, 4, 0, 0],
    };
    let samples = THREE_ROWS.as_flattened();
    let mut list = [EMPTY; 6];
    has_road(&rt, &Table::new(frame, samples), seed, &mut list, 4, 40)
}
