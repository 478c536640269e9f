// Lists without repeats, of records that can tell sameness, over a slice that the caller lends.
ghost use Rattle.std.specs.Prelude.{◌≡◌, ◌+◌, ◌≤◌, ◌↔◌, min, Bool, true, Ok, Err, is_ok, length, take, if◌then◌else◌, nat_lt, slice_set, position};
ghost use Rattle.grid.specs.Refusals.{answered, refusal};
ghost use Rattle.tracing.specs.Search.{lowest_place, usable};

use grid::Refusal;

// A record that can tell whether another is the same. Not a law about `==`: that would shut out a record whose `==` is coarser.
pub trait Same {
    ghost same_as: { Self → Self → Bool };

    fn is_same(&self, other: &Self) -> bool
        ensures { result ≡ same_as self.now other.now };

    // Yes exactly for equal records.
    ghost exact: { (x y : Self) → (same_as x y ≡ true) ↔ (x ≡ y) };
}

// No list uses more places than this, however long its slice is.
const MOST_PLACES: usize = 65535;

// The first `count` places of a slice are used. The places are the caller's memory, since the library has no heap.
#[derive(Drop)]
pub struct Listed<'a, R> {
    places: &'a mut [R],
    count: usize,
}

impl<'a, R: Same + Drop> Listed<'a, R> {
    // The list of the records in the first `count` places of the slice, or in all that a list can use if these are fewer.
    pub fn over(places: &'a mut [R], count: usize) -> Listed<'a, R>
        ensures counted { result.count ≡ min count (usable places.old) }
        ensures whole { count ≤ length places.old → count ≤ 65535 → result.count ≡ count }
        ensures kept { result.places.now ≡ places.old }
        ensures lent { result.places.ghost_name ≡ places.entry.ghost_name }
    {
        let count = count.min(places.len()).min(MOST_PLACES);
        Listed { places, count }
    }

    // How many records are listed.
    pub fn count(&self) -> usize
        ensures { result ≡ self.now.count }
    {
        self.count
    }

    // The lowest place that holds this record.
    #[tactic(auto, using(crate::proofs::Lowest::position_is_lowest))]
    pub fn find(&self, record: &R) -> Option<usize>
        ensures { result ≡ lowest_place R.Same.same_as «record».now (take self.now.count self.now.places.now) }
    {
        first_place(self.places, self.count, record)
    }

    // Puts the record at the first unused place. If there is none, nothing changes.
    pub fn append(&mut self, record: R) -> Result<(), Refusal>
        ensures answer { answered (λ x. x) result ≡ (if nat_lt self.old.count (usable self.old.places.now) then Ok tt else Err (refusal 7)) }
        ensures counted { self.new.count ≡ (if is_ok result then self.old.count + 1 else self.old.count) }
        ensures written { self.new.places.now ≡ (if is_ok result then slice_set self.old.places.now self.old.count «record» else self.old.places.now) }
        ensures lent { self.new.places.ghost_name ≡ self.old.places.ghost_name }
    {
        if self.count >= self.places.len() || self.count >= MOST_PLACES {
            return Err(Refusal::NoPlaceUnused);
        }
        self.places[self.count] = record;
        self.count += 1;
        Ok(())
    }
}

// The first place below `count`, or below the slice's length, that holds the record.
fn first_place<R: Same>(places: &[R], count: usize, record: &R) -> Option<usize>
    ensures { result ≡ position (R.Same.same_as «record».now) (take count places.now) }
{
    places
        .iter()
        .take(count)
        .position(|place| record.is_same(place))
}
