use cells::{Cell, CellRecord};
use grid::{Refusal, Vertex};
use std::test::Fail;

// Base (0,0,0), labels 1223.
const WORKED: CellRecord = CellRecord {
    d: 3,
    l: 2,
    base: [0, 0, 0, 0, 0, 0],
    labels: [1, 2, 2, 3, 0, 0, 0],
};

const NOT_A_CELL: Option<Refusal> = Some(Refusal::NotACell);

fn refusal(d: u8, l: u8, base: [i32; 6], labels: [u8; 7]) -> Option<Refusal> {
    Cell::new(CellRecord { d, l, base, labels }).err()
}

#[test]
fn labels_are_an_ordered_partition(rt: HostRuntime) {
    let base = [0; 6];
    assert_eq!(rt; refusal(2, 1, base, [1, 2, 2, 0, 0, 0, 0]), None);
    assert_eq!(rt; refusal(2, 0, base, [1, 1, 1, 0, 0, 0, 0]), None);
    assert_eq!(rt; refusal(6, 6, base, [3, 1, 2, 6, 5, 4, 7]), None);
    assert_eq!(rt;
        refusal(2, 2, base, [1, 1, 3, 0, 0, 0, 0]),
        NOT_A_CELL,
        "part 2 is empty"
    );
    assert_eq!(rt;
        refusal(2, 1, base, [0, 1, 2, 0, 0, 0, 0]),
        NOT_A_CELL,
        "label 0"
    );
    assert_eq!(rt;
        refusal(2, 1, base, [3, 1, 2, 0, 0, 0, 0]),
        NOT_A_CELL,
        "label above l + 1"
    );
    assert_eq!(rt;
        refusal(2, 1, base, [1, 2, 1, 0, 0, 0, 0]),
        NOT_A_CELL,
        "the last number in part 1"
    );
}

#[test]
fn axes_and_dimension_have_their_ranges(rt: HostRuntime) {
    let base = [0; 6];
    assert_eq!(rt; refusal(1, 1, base, [1, 2, 0, 0, 0, 0, 0]), NOT_A_CELL);
    assert_eq!(rt; refusal(7, 1, base, [1, 2, 2, 2, 2, 2, 2]), NOT_A_CELL);
    assert_eq!(rt; refusal(2, 3, base, [1, 2, 4, 0, 0, 0, 0]), NOT_A_CELL);
    assert_eq!(rt; refusal(255, 255, base, [1, 2, 2, 2, 2, 2, 2]), NOT_A_CELL);
}

#[test]
fn unused_places_hold_0(rt: HostRuntime) {
    assert_eq!(rt;
        refusal(2, 1, [0, 0, 1, 0, 0, 0], [1, 2, 2, 0, 0, 0, 0]),
        NOT_A_CELL
    );
    assert_eq!(rt;
        refusal(2, 1, [0, 0, 0, 0, 0, -1], [1, 2, 2, 0, 0, 0, 0]),
        NOT_A_CELL
    );
    assert_eq!(rt; refusal(2, 1, [0; 6], [1, 2, 2, 1, 0, 0, 0]), NOT_A_CELL);
    assert_eq!(rt; refusal(2, 1, [0; 6], [1, 2, 2, 0, 0, 0, 9]), NOT_A_CELL);
}

#[test]
fn every_vertex_lies_in_the_world(rt: HostRuntime) {
    let labels = [1, 2, 2, 0, 0, 0, 0];
    assert_eq!(rt; refusal(2, 1, [-10_000, 10_000, 0, 0, 0, 0], labels), None);
    assert_eq!(rt; refusal(2, 1, [9_999, 0, 0, 0, 0, 0], labels), None);
    assert_eq!(rt; refusal(2, 1, [-10_001, 0, 0, 0, 0, 0], labels), NOT_A_CELL);
    assert_eq!(rt; refusal(2, 1, [0, 10_001, 0, 0, 0, 0], labels), NOT_A_CELL);
    assert_eq!(rt;
        refusal(2, 1, [10_000, 0, 0, 0, 0, 0], labels),
        NOT_A_CELL,
        "vertex 1 is outside"
    );
    assert_eq!(rt;
        refusal(2, 1, [2147483647, 0, 0, 0, 0, 0], labels),
        NOT_A_CELL
    );
}

#[test]
fn vertices_follow_the_parts(rt: HostRuntime) -> Result<(), Fail> {
    let cell = Cell::new(WORKED)?;
    assert_eq!(rt; cell.d(), 3);
    assert_eq!(rt; cell.dimension(), 2);
    assert_eq!(rt; cell.vertex(0), Vertex::new(&[0, 0, 0]));
    assert_eq!(rt; cell.vertex(1), Vertex::new(&[1, 0, 0]));
    assert_eq!(rt; cell.vertex(2), Vertex::new(&[1, 1, 1]));
    assert_eq!(rt; cell.vertex(3), None);
    assert_eq!(rt; cell.vertex(255), None);
    Ok(())
}

#[test]
fn a_cell_prints_base_and_labels(rt: HostRuntime) -> Result<(), Fail> {
    let cell = Cell::new(WORKED)?;
    let text = format!(in rt.alloc(); "{cell}")?;
    assert_eq!(rt; text.as_str(), "0 0 0 1223");
    Ok(())
}

#[test]
fn a_cell_keeps_its_record(rt: HostRuntime) -> Result<(), Fail> {
    let cell = Cell::new(WORKED)?;
    assert_eq!(rt; cell.record(), WORKED);
    Ok(())
}
