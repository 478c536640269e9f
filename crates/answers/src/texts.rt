// What the answers print alike.
use grid::{Fault, Refusal};
use std::alloc::{AllocError, Global};
use std::fmt;
use std::fmt::{Display, Write};

// The numbers of a fault: its cause, place and height.
#[derive(Drop)]
pub struct FaultNumbers(pub Fault);

impl Display for FaultNumbers {
    fn fmt<W: fmt::Write>(&self, f: &mut fmt::Formatter<W>) -> fmt::Result {
        let cause = self.0.cause.number();
        let place = self.0.place;
        let height = self.0.height;
        write!(f, "{cause} {place} {height}")
    }
}

// The number of a refusal, and with 9 those of the fault.
pub fn refused(heap: Global, refusal: Refusal) -> Result<String, AllocError> {
    let number = refusal.number();
    match refusal.fault() {
        Some(fault) => format!(in heap; "no {number} {}", FaultNumbers(fault)),
        None => format!(in heap; "no {number}"),
    }
}

// Puts each item at the end, after a space.
pub fn put_all<T: Display>(text: &mut String, items: &[T]) -> Result<(), AllocError> {
    for item in items {
        write!(text, " {item}")?;
    }
    Ok(())
}
