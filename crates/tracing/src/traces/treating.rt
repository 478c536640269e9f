// Treating one pair of the cell that a trace works on.
ghost use Rattle.std.specs.Prelude.{◌≡◌, ◌<◌, ◌≤◌, ◌||◌, length, take, Some};
ghost use Rattle.std.specs.Option.{option_map};
ghost use Rattle.grid.specs.Frames.{frame_numbers, sides_of};
ghost use Rattle.grid.specs.Lists.{holds};
ghost use Rattle.grid.specs.Refusals.{answered};
ghost use Rattle.cells.specs.Pairs.{pair_count};
ghost use Rattle.cells.specs.Records.{record_eq};
ghost use Rattle.tracing.specs.Steps.{followed, leads_to, record_at, treat as treat_of};
ghost use Rattle.tracing.specs.Traces.{onward, trace_numbers};
ghost use Rattle.tracing.specs.Turns.{cell_with_pair, onward_turn, SamePair, turn_of, Unchanged};

use super::Trace;
use crate::lists::{Listed, Same};
use cells::{Cell, CellRecord};
use crossing::{Class, class_over, fits, lies_in};
use fields::Field;
use grid::{Frame, Refusal};

impl Trace {
    // One pair of the cell at place next, which is listed. Trace, field and list stay three parameters, as in the steps.
    pub(crate) fn treat<F: Field>(
        &mut self,
        field: &F,
        list: &mut [CellRecord],
    ) -> Result<(), Refusal>
        requires ahead { self.old.next < self.old.count }
        requires listed { self.old.count ≤ length list.old }
        ensures turn { turn_of self.new list.new result ≡ treat_of (F.Field.meaning field.now) (trace_numbers self.old) list.old }
        ensures unchanged { Unchanged result self.old self.new list.old list.new }
        ensures room { self.new.count ≤ length list.new }
    {
        let frame = field.frame();
        let cell = self.cell_at_next(&frame, list)?;
        if let Some(facet) = facet_through(&frame, &cell, self.pair) {
            self.take_up(field, list, &cell, &facet)?;
        }
        self.advance(cell.pairs());
        Ok(())
    }

    // The cell at place next of the list, which must fit the frame and have a pair of this number.
    fn cell_at_next(&self, frame: &Frame, list: &[CellRecord]) -> Result<Cell, Refusal>
        requires { self.now.next < length list.now }
        ensures { answered (λ c. c.plain) result ≡ cell_with_pair (frame_numbers frame.now) self.now.pair (record_at list.now self.now.next) }
    {
        let cell = Cell::new(list[self.next]).map_err(|_| Refusal::DoesNotFit)?;
        if !fits(frame, &cell) {
            return Err(Refusal::DoesNotFit);
        }
        if self.pair >= cell.pairs() {
            return Err(Refusal::NotThisList);
        }
        Ok(cell)
    }

    // Appends a facet that is crossed and not known. A clear one and a known one are passed over.
    fn take_up<F: Field>(
        &mut self,
        field: &F,
        list: &mut [CellRecord],
        cell: &Cell,
        facet: &Cell,
    ) -> Result<(), Refusal>
        requires { self.old.count ≤ length list.old }
        ensures turn { onward_turn (pair_count cell.now.plain) (turn_of self.new list.new result) ≡ followed (F.Field.meaning field.now) (Some facet.now.plain) cell.now.plain (trace_numbers self.old) list.old }
        ensures unchanged { Unchanged result self.old self.new list.old list.new }
        ensures kept { SamePair self.old self.new list.new }
    {
        let mut listed = Listed::over(list, self.count);
        if is_known(&listed, cell, facet) {
            return Ok(());
        }
        match class_over(field, facet)? {
            Class::Crossed => {
                listed.append(facet.record())?;
                self.count = listed.count();
                Ok(())
            }
            Class::Clear => Ok(()),
            Class::Degenerate => Err(Refusal::Degenerate),
        }
    }

    // One pair on, of a cell with so many pairs.
    fn advance(&mut self, pairs: u32)
        requires ahead { self.old.next < self.old.count }
        requires pair_below { self.old.pair < pairs }
        requires pairs_few { pairs ≤ 7056 }
        ensures { trace_numbers self.new ≡ onward pairs (trace_numbers self.old) }
    {
        self.steps += 1;
        if self.pair + 1 < pairs {
            self.pair += 1;
        } else {
            self.next += 1;
            self.pair = 0;
        }
    }
}

// The facet that pair n leads to, if its cofacet is in the box.
#[tactic(auto, using(crate::proofs::Treated::no_pair))]
fn facet_through(frame: &Frame, cell: &Cell, n: u32) -> Option<Cell>
    ensures { option_map (λ c. c.plain) result ≡ leads_to (sides_of frame.now) cell.now.plain n }
{
    let (number, vertex) = cell.pair(n).ok()?;
    let cofacet = cell.cofacet(number).ok()?;
    if !lies_in(frame, &cofacet) {
        return None;
    }
    cofacet.facet(vertex).ok()
}

// Whether a facet is the cell itself or is listed.
#[tactic(auto, using(crate::proofs::Lowest::placed_if_held))]
fn is_known(listed: &Listed<CellRecord>, cell: &Cell, facet: &Cell) -> bool
    ensures { result ≡ (record_eq facet.now.plain cell.now.plain || holds record_eq (take listed.now.count listed.now.places.now) facet.now.plain) }
{
    let record = facet.record();
    record.is_same(&cell.record()) || listed.find(&record).is_some()
}
