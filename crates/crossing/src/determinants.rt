// The determinants of a matrix without one vertex.
ghost use Rattle.std.specs.Prelude.{◌≡◌, ◌^◌, ◌<◌, ◌≤◌, [], ◌∷◌, ◌*ℤ◌, unsigned_abs};
ghost use Rattle.grid.specs.Below.{table};
ghost use Rattle.crossing.specs.Determinants.{alternating, determinant as determinant_of, minor as minor_of, minor3 as minor3_of, passing as passing_of, signed_determinant};
ghost use Rattle.crossing.specs.Weights.{value};

use crate::matrices::VertexValues;

impl VertexValues {
    // Entry i is the determinant without vertex i, with alternating sign. Those past k are not read.
    #[inline(always)]
    pub(crate) fn signed_determinants(&self) -> [i64; 4]
        ensures { result ≡ table 4 (signed_determinant self.now.k (value self.now.at)) }
    {
        // Filled in a loop: with `from_fn` a call that writes k out took twice as many instructions for a class.
        let mut signed = [0; 4];
        for (i, place) in signed.iter_mut().enumerate() {
            *place = alternated(i, self.without(i));
        }
        signed
    }

    // The determinant of the k rows at all vertices but vertex i.
    #[inline(always)]
    fn without(&self, i: usize) -> i64
        requires { i < 4 }
        ensures is { result ≡ determinant_of self.now.k (λ j. value self.now.at (passing_of i j)) }
        ensures small { unsigned_abs result ≤ 2 ^ 48 }
    {
        let at = &self.at;
        match self.k {
            1 => i64::from(at[passing(i, 0)][0]),
            2 => minor(at[passing(i, 0)], at[passing(i, 1)], 0, 1),
            _ => minor3(at[passing(i, 0)], at[passing(i, 1)], at[passing(i, 2)]),
        }
    }
}

fn alternated(i: usize, x: i64) -> i64
    requires { unsigned_abs x ≤ 2 ^ 48 }
    ensures { result ≡ alternating i x }
{
    if i % 2 == 0 { x } else { -x }
}

// The numbers without i, in order.
fn passing(i: usize, j: usize) -> usize
    requires { j < 3 }
    ensures value { result ≡ passing_of i j }
    ensures range { result < 4 }
{
    if j < i { j } else { j + 1 }
}

// The determinant of rows r and s at two vertices.
fn minor(a: [i16; 3], b: [i16; 3], r: usize, s: usize) -> i64
    requires first { r < 3 }
    requires second { s < 3 }
    ensures is { result ≡ minor_of (value (a ∷ b ∷ [])) 0 1 r s }
    ensures small { unsigned_abs result ≤ 2 ^ 31 }
{
    product(a[r], b[s]) - product(a[s], b[r])
}

fn product(x: i16, y: i16) -> i64
    ensures is { result ≡ x *ℤ y }
    ensures small { unsigned_abs result ≤ 2 ^ 30 }
{
    i64::from(x) * i64::from(y)
}

// The determinant of three rows at three vertices.
fn minor3(a: [i16; 3], b: [i16; 3], c: [i16; 3]) -> i64
    ensures is { result ≡ minor3_of (value (a ∷ b ∷ c ∷ [])) 0 1 2 }
    ensures small { unsigned_abs result ≤ 2 ^ 48 }
{
    scaled(a[0], minor(b, c, 1, 2)) - scaled(a[1], minor(b, c, 0, 2))
        + scaled(a[2], minor(b, c, 0, 1))
}

fn scaled(x: i16, m: i64) -> i64
    requires { unsigned_abs m ≤ 2 ^ 31 }
    ensures is { result ≡ x *ℤ m }
    ensures small { unsigned_abs result ≤ 2 ^ 46 }
{
    i64::from(x) * m
}
