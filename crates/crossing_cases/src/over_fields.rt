use cells::{Cell, CellRecord};
use crossing::{Class, class_over, fits, lies_in};
use fields::Table;
use grid::{Cause, Fault, Frame, Refusal};
use std::test::Fail;

// A triangle with the vertices (0, 0, 0), (1, 0, 0) and (1, 1, 1), which have the numbers 0, 1 and 7 in a box of sides 1.
fn triangle() -> Result<Cell, Refusal> {
    Cell::new(CellRecord {
        d: 3,
        l: 2,
        base: [0; 6],
        labels: [1, 2, 2, 3, 0, 0, 0],
    })
}

fn edge(x: i32, y: i32, labels: [u8; 7]) -> Result<Cell, Refusal> {
    Cell::new(CellRecord {
        d: 2,
        l: 1,
        base: [x, y, 0, 0, 0, 0],
        labels,
    })
}

// The class of the triangle over samples for the 8 corners of a cube, two at each.
fn over_cube(samples: &[i16]) -> Result<Class, Refusal> {
    let frame = Frame::new(3, 2, &[1, 1, 1])?;
    class_over(&Table::new(frame, samples), &triangle()?)
}

fn blank_at(place: u64) -> Result<Class, Refusal> {
    Err(Refusal::Faulty(Fault {
        cause: Cause::Blank,
        place,
        height: 0,
    }))
}

#[test]
fn the_values_at_the_vertices_decide(rt: HostRuntime) {
    let mut samples = [9; 16];
    samples[0] = 2;
    samples[1] = 0;
    samples[2] = 0;
    samples[3] = 2;
    samples[14] = -1;
    samples[15] = -1;
    assert_eq!(rt; over_cube(&samples), Ok(Class::Crossed));
    samples[15] = 0;
    assert_eq!(rt; over_cube(&samples), Ok(Class::Degenerate));
    samples[15] = 1;
    assert_eq!(rt; over_cube(&samples), Ok(Class::Clear));
}

#[test]
fn the_first_blank_is_told(rt: HostRuntime) {
    let mut samples = [1; 16];
    samples[15] = -32768;
    assert_eq!(rt; over_cube(&samples), blank_at(7));
    samples[2] = -32768;
    assert_eq!(rt; over_cube(&samples), blank_at(1));
    samples[1] = -32768;
    assert_eq!(rt; over_cube(&samples), blank_at(0));
    assert_eq!(rt; over_cube(&[1; 15]), blank_at(7), "past the end");
}

#[test]
fn a_cell_has_to_fit(rt: HostRuntime) -> Result<(), Fail> {
    let frame = Frame::new(2, 1, &[2, 1])?;
    let samples = [-3, -1, 1, -1, 1, 3];
    let table = Table::new(frame, &samples);
    let seed = edge(0, 1, [1, 2, 2, 0, 0, 0, 0])?;
    assert_eq!(rt; class_over(&table, &seed), Ok(Class::Crossed));
    let leaving = edge(2, 0, [1, 2, 2, 0, 0, 0, 0])?;
    assert_eq!(rt;
        class_over(&table, &leaving),
        Err(Refusal::DoesNotFit),
        "its highest vertex is outside"
    );
    assert!(rt; !lies_in(&frame, &leaving));
    let another = triangle()?;
    assert!(rt; !fits(&frame, &another), "another d");
    assert_eq!(rt; class_over(&table, &another), Err(Refusal::DoesNotFit));
    Ok(())
}

#[test]
fn a_dimension_has_to_be_k(rt: HostRuntime) -> Result<(), Fail> {
    let frame = Frame::new(3, 1, &[1, 1, 1])?;
    let cell = triangle()?;
    assert!(rt; lies_in(&frame, &cell));
    assert!(rt; !fits(&frame, &cell));
    assert_eq!(rt;
        class_over(&Table::new(frame, &[]), &cell),
        Err(Refusal::DoesNotFit),
        "8 comes before 9"
    );
    Ok(())
}
