// A cell as it lies in a list: plain numbers, which may be no cell's.
ghost use Rattle.std.specs.Prelude.{◌≡◌, ◌↔◌, IsTrue};
ghost use Rattle.std.specs.Cmp.{and_per, int_eq_equiv, nat_eq_equiv, on_per, partial_equiv_from_equiv};
ghost use Rattle.std.specs.Cmp.Lexicographic.{lists_per};
ghost use Rattle.cells.specs.Records.{record_eq};

// Label j is the number, from 1, of the part that holds j. Places that d leaves unused hold 0; a list of records is memory of the
// caller, so that all records have one size.
#[derive(Clone, Copy, Eq, Debug)]
pub struct CellRecord {
    pub d: u8,
    pub l: u8,
    pub base: [i32; 6],
    pub labels: [u8; 7],
}

// Not derived, since a derived == has no clause `exact`.
impl PartialEq for CellRecord {
    ghost eq = { record_eq };

    ghost laws = { and_per (on_per (λ r. r.d) (partial_equiv_from_equiv nat_eq_equiv))
        (and_per (on_per (λ r. r.l) (partial_equiv_from_equiv nat_eq_equiv))
        (and_per (on_per (λ r. r.base) (lists_per (partial_equiv_from_equiv int_eq_equiv)))
        (on_per (λ r. r.labels) (lists_per (partial_equiv_from_equiv nat_eq_equiv))))) };

    #[tactic(auto, using(crate::proofs::Recorded::told_by_labels, crate::proofs::Recorded::told_by_base))]
    fn eq(&self, other: &CellRecord) -> bool
        ensures tells { result ≡ record_eq self.now other.now }
        ensures exact { IsTrue result ↔ (self.now ≡ other.now) }
    {
        // In brackets, so that each way out of the test rests on one comparison.
        self.d == other.d
            && self.l == other.l
            && (self.base == other.base && self.labels == other.labels)
    }
}
