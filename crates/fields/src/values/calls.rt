// Making values and reading them.
ghost use Rattle.std.specs.Prelude.{◌≡◌, ℕ, ◌<◌, ◌≤◌, true, ℤ, pos, length, slice_index_or};
ghost use Rattle.std.specs.Option.{option_map};
ghost use Rattle.grid.specs.Below.{table};
ghost use Rattle.fields.specs.Scale.{all_on_scale, graded, on_scale};
ghost use Rattle.fields.specs.Values.{rows_of, values_answer};

use super::Values;

impl Values {
    // The values with these rows: 1 to 3 numbers, each on the scale.
    pub fn new(rows: &[i64]) -> Option<Values>
        ensures { option_map rows_of result ≡ values_answer rows.now }
    {
        let fits = (1..=3).contains(&rows.len()) && are_on_scale(rows);
        fits.then(|| kept(rows))
    }

    // The k rows that `row` computes from their numbers, if each is on the scale.
    pub(crate) fn from_fn<F: Fn(usize) -> i64>(k: u8, row: F) -> Option<Values>
        requires k_low { 1 ≤ k }
        requires k_high { k ≤ 3 }
        requires callable { (r : ℕ) → r < k → F.pre row r }
        ensures { (f : ℕ → ℤ) → ((r : ℕ) (x : ℤ) → r < k → F.post row r x → x ≡ f r)
            → option_map rows_of result ≡ graded (table k f) }
    {
        let rows: [i64; 3] = std::array::from_fn(
            |r: usize| -> i64
                requires { r < k → F.pre row r }
                ensures there { r < k → F.post row r result }
                ensures past { k ≤ r → result ≡ pos 0 }
            { if r < usize::from(k) { row(r) } else { 0 } },
        );
        Values::new(&rows[..usize::from(k)])
    }

    pub fn rows(&self) -> &[i16]
        ensures { result.now ≡ rows_of self.now }
    {
        &self.rows[..usize::from(self.k)]
    }
}

fn is_on_scale(x: i64) -> bool
    ensures { result ≡ on_scale x }
{
    (-32_767..=32_767).contains(&x)
}

fn are_on_scale(rows: &[i64]) -> bool
    ensures { result ≡ all_on_scale rows.now }
{
    rows.iter().all(|row| is_on_scale(*row))
}

fn kept(rows: &[i64]) -> Values
    requires some { 1 ≤ length rows.now }
    requires few { length rows.now ≤ 3 }
    requires on_scale { all_on_scale rows.now ≡ true }
    ensures { rows_of result ≡ rows.now }
{
    Values {
        k: rows.len() as u8,
        rows: std::array::from_fn(|r| narrow(rows, r)),
    }
}

// Row r in 16 bits, and 0 past the last.
fn narrow(rows: &[i64], r: usize) -> i16
    requires { all_on_scale rows.now ≡ true }
    ensures { result ≡ slice_index_or rows.now r (pos 0) }
{
    match rows.get(r) {
        Some(row) => *row as i16,
        None => 0,
    }
}
