// What a field is to answer at a vertex.
use fields::Field;
use grid::{Cause, Fault, Vertex};
use std::process::Abort;
use std::test::Fail;

pub fn has_rows<F: Field>(
    rt: &impl Abort,
    field: &F,
    at: &[i32],
    rows: &[i16],
) -> Result<(), Fail> {
    let vertex = Vertex::new(at).ok_or("no vertex")?;
    let values = field.at(&vertex)?;
    assert_eq!(rt; values.rows(), rows);
    Ok(())
}

// The three numbers stand one by one, since a `Fault` written out takes five lines at each call.
pub fn has_fault<F: Field>(
    rt: &impl Abort,
    field: &F,
    at: &[i32],
    cause: Cause,
    place: u64,
    height: u8,
) -> Result<(), Fail> {
    let vertex = Vertex::new(at).ok_or("no vertex")?;
    let fault = Fault {
        cause,
        place,
        height,
    };
    assert_eq!(rt; field.at(&vertex).err(), Some(fault));
    Ok(())
}
