// Numbers read one after another, and what they make together; none is read beyond the last.
ghost use Rattle.std.specs.Array.Iter.{IntoIterFitsInMemory};

use crate::stops::Stop;
use cells::{Cell, CellRecord};
use fields::Row;
use grid::{Frame, Vertex};
use std::alloc::{AllocError, Global};
use std::array;
use std::num::TryFromIntError;

// No frame and no vertex has more axes.
const MOST_AXES: usize = 6;

#[derive(Drop)]
pub struct Reader<'a> {
    heap: Global,
    rest: &'a [i64],
}

// A layer, without the field below it.
#[derive(Drop)]
pub enum Layer {
    Level([i16; 3]),
    Window(Frame, [u16; 6]),
}

// The numbers of a line after its first word; one that is no number ends them.
pub fn numbers(heap: Global, line: &str) -> Result<Vec<i64>, AllocError> {
    line.split(' ')
        .skip(1)
        .map_while(|word| word.parse::<i64>().ok())
        .collect(heap)
}

impl<'a> Reader<'a> {
    pub fn new(heap: Global, numbers: &'a [i64]) -> Reader<'a> {
        Reader {
            heap,
            rest: numbers,
        }
    }

    pub fn heap(&self) -> Global {
        self.heap
    }

    // The bound stands at each function: with a trait of our own in its place, `part`, `frame` and others did not prove.
    pub fn number<T: TryFrom<i64, Error = TryFromIntError>>(&mut self) -> Result<T, Stop> {
        let (first, rest) = self.rest.split_first().ok_or(Stop::Unread)?;
        self.rest = rest;
        Ok(T::try_from(*first)?)
    }

    fn array<T: TryFrom<i64, Error = TryFromIntError> + Drop, const N: usize>(
        &mut self,
    ) -> Result<[T; N], Stop>
        requires { IntoIterFitsInMemory T.row N.row }
    {
        array::try_from_fn(|_| self.number())
    }

    // A length, and then a reader of that many numbers.
    fn part(&mut self) -> Result<Reader<'a>, Stop> {
        let length = self.number()?;
        let (part, rest) = self.rest.split_at_checked(length).ok_or(Stop::Unread)?;
        self.rest = rest;
        Ok(Reader::new(self.heap, part))
    }

    // A length, and then that many numbers.
    pub fn list<T: TryFrom<i64, Error = TryFromIntError> + Drop>(
        &mut self,
    ) -> Result<Vec<T>, Stop> {
        self.part()?.fitted()
    }

    // A list with a number for each axis. A longer one than any frame or vertex has is not taken into memory.
    fn axes<T: TryFrom<i64, Error = TryFromIntError> + Drop>(&mut self) -> Result<Vec<T>, Stop> {
        let part = self.part()?;
        if part.rest.len() > MOST_AXES {
            return Err(Stop::Unread);
        }
        part.fitted()
    }

    // All numbers that are left, if each fits.
    fn fitted<T: TryFrom<i64, Error = TryFromIntError> + Drop>(&self) -> Result<Vec<T>, Stop> {
        self.rest
            .iter()
            .map(|number| -> Result<T, Stop> { Ok(T::try_from(*number)?) })
            .try_collect(self.heap)
    }

    // All numbers that are left, and 0 for one that does not fit.
    pub fn all<T: TryFrom<i64, Error = TryFromIntError> + Default + Drop>(
        &self,
    ) -> Result<Vec<T>, AllocError> {
        self.rest
            .iter()
            .map(|number| T::try_from(*number).unwrap_or_default())
            .collect(self.heap)
    }

    // d, k and the list of the sides.
    pub fn frame(&mut self) -> Result<Frame, Stop> {
        let d = self.number()?;
        let k = self.number()?;
        let sides = self.axes()?;
        Frame::new(d, k, sides.as_slice()).map_err(|_| Stop::Unread)
    }

    pub fn vertex(&mut self) -> Result<Vertex, Stop> {
        let at = self.axes()?;
        Vertex::new(at.as_slice()).ok_or(Stop::Unread)
    }

    pub fn record(&mut self) -> Result<CellRecord, Stop> {
        Ok(CellRecord {
            d: self.number()?,
            l: self.number()?,
            base: self.array()?,
            labels: self.array()?,
        })
    }

    pub fn cell(&mut self) -> Result<Cell, Stop> {
        Cell::new(self.record()?).map_err(|_| Stop::Unread)
    }

    // A list of three rows.
    pub fn rows(&mut self) -> Result<[Row; 3], Stop> {
        let mut list = self.part()?;
        array::try_from_fn(|_| list.row())
    }

    fn row(&mut self) -> Result<Row, Stop> {
        Ok(Row {
            constant: self.number()?,
            linear: self.array()?,
            square: self.array()?,
        })
    }

    // 1 and the levels, or 2, the frame and the corner.
    pub fn layer(&mut self) -> Result<Layer, Stop> {
        match self.number::<u8>()? {
            1 => Ok(Layer::Level(self.array()?)),
            2 => Ok(Layer::Window(self.frame()?, self.array()?)),
            _ => Err(Stop::Unread),
        }
    }
}
