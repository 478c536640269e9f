// Fields under up to three layers, asked for their outcome at a vertex or for the class of a cell. Each layer makes another type,
// so that a question takes a field of any.
use crate::readers::{Layer, Reader};
use crate::stops::Stop;
use crate::texts::{FaultNumbers, put_all};
use crossing::class_over;
use fields::{Field, Level, Quadric, Table, Window};

// The field stays while the reader goes on, so the two are not one.
pub trait Question: Copy {
    fn ask<F: Field>(self, field: &F, reader: &mut Reader<'_>) -> Result<String, Stop>;
}

#[derive(Clone, Copy)]
pub struct AtVertex;

#[derive(Clone, Copy)]
pub struct OfCell;

// A question to the field under one more layer.
#[derive(Clone, Copy)]
struct Under<Q>(Q);

impl Question for AtVertex {
    fn ask<F: Field>(self, field: &F, reader: &mut Reader<'_>) -> Result<String, Stop> {
        let vertex = reader.vertex()?;
        match field.at(&vertex) {
            Ok(values) => {
                let rows = values.rows();
                let mut text = format!(in reader.heap(); "ok {}", rows.len())?;
                put_all(&mut text, rows)?;
                Ok(text)
            }
            Err(fault) => Ok(format!(in reader.heap(); "fault {}", FaultNumbers(fault))?),
        }
    }
}

impl Question for OfCell {
    fn ask<F: Field>(self, field: &F, reader: &mut Reader<'_>) -> Result<String, Stop> {
        let class = class_over(field, &reader.cell()?)?;
        Ok(format!(in reader.heap(); "ok {class}")?)
    }
}

impl<Q: Question> Question for Under<Q> {
    fn ask<F: Field>(self, field: &F, reader: &mut Reader<'_>) -> Result<String, Stop> {
        match reader.layer()? {
            Layer::Level(levels) => self.0.ask(&Level::new(field, levels), reader),
            Layer::Window(own, corner) => self.0.ask(&Window::new(field, own, corner), reader),
        }
    }
}

pub fn ask_table<Q: Question>(question: Q, reader: &mut Reader<'_>) -> Result<String, Stop> {
    let frame = reader.frame()?;
    let samples = reader.list()?;
    piled(&Table::new(frame, samples.as_slice()), question, reader)
}

pub fn ask_quadric<Q: Question>(question: Q, reader: &mut Reader<'_>) -> Result<String, Stop> {
    let quadric = Quadric::new(reader.frame()?, reader.rows()?);
    piled(&quadric, question, reader)
}

// The answer under as many layers as the next number says.
fn piled<F: Field, Q: Question>(
    field: &F,
    question: Q,
    reader: &mut Reader<'_>,
) -> Result<String, Stop> {
    match reader.number::<u8>()? {
        0 => question.ask(field, reader),
        1 => Under(question).ask(field, reader),
        2 => Under(Under(question)).ask(field, reader),
        3 => Under(Under(Under(question))).ask(field, reader),
        _ => Err(Stop::Unread),
    }
}
