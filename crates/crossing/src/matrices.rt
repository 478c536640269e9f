// The values at the vertices of a cell.
ghost use Rattle.std.specs.Prelude.{◌≡◌, ◌*◌, ◌<◌, ◌≤◌, IfSome, drop, is_some};
ghost use Rattle.grid.specs.Below.{table};
ghost use Rattle.crossing.specs.Determinants.{by_vertex, class_of, is_shaped};
ghost use Rattle.crossing.specs.Weights.{Agree, entry, Given};

// Row r at vertex i is at[i][r], for i from 0 to k and r below k. What stands in the other places is not read; there are as many as
// k can need, since the library has no heap.
#[derive(Clone, Copy)]
pub(crate) struct VertexValues {
    pub(crate) k: u8,
    pub(crate) at: [[i16; 3]; 4],
    ghost k_low: { 1 ≤ k },
    ghost k_high: { k ≤ 3 },
}

impl VertexValues {
    // From numbers written vertex by vertex, k at each, which this joins. None if k is not 1 to 3, or if there are more numbers or fewer.
    // Inlined, like what decides the class, so that a call that writes k out becomes the code for that k alone.
    #[inline(always)]
    pub(crate) fn new(k: u8, values: &[i16]) -> Option<VertexValues>
        ensures shaped { is_some result ≡ is_shaped k values.now }
        ensures rows { IfSome result (λ v. v.k ≡ k) }
        ensures values { IfSome result (λ v. Agree k v.at (by_vertex k values.now)) }
        ensures class { IfSome result (λ v. class_of v.k v.at ≡ class_of k (by_vertex k values.now)) }
        ensures weights { IfSome result (λ v. Given k (by_vertex k values.now) (class_of v.k v.at)) }
    {
        let rows = usize::from(k);
        if !(1..=3).contains(&rows) || values.len() != rows * (rows + 1) {
            return None;
        }
        let at = std::array::from_fn(
            |i: usize| -> [i16; 3]
                requires { i < 4 }
                ensures { result ≡ table 3 (entry (drop (k * i) values.entry.now)) }
            { row_at(values, k, i) },
        );
        Some(VertexValues { k, at })
    }
}

// The values from vertex i on, k at each: the first three, with 0 for those that are missing.
fn row_at(values: &[i16], k: u8, i: usize) -> [i16; 3]
    requires { i < 4 }
    ensures { result ≡ table 3 (entry (drop (k * i) values.now)) }
{
    row_of(values.get(usize::from(k) * i..).unwrap_or(&[]))
}

// The first three values, with 0 for those that are missing.
pub(crate) fn row_of(values: &[i16]) -> [i16; 3]
    ensures { result ≡ table 3 (entry values.now) }
{
    std::array::from_fn(|r| values.get(r).copied().unwrap_or(0))
}
