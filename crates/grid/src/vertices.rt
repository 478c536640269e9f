// A vertex: d whole numbers, d from 2 to 6.
mod calls;
mod display;
mod equality;

ghost use Rattle.std.specs.Prelude.{◌≡◌, ℕ, ◌≤◌, length, pos, slice_index_or};

// The places from d on hold 0, so that vertices with the same coordinates are equal.
// An array and its length: the library has no heap, and an `ArrayVec` is not `Copy`.
// No `Model`: the layers above read these facts off the fields, without a call.
#[derive(Clone, Copy, Eq, Debug)]
pub struct Vertex {
    d: u8,
    at: [i32; 6],
    ghost d_low: { 2 ≤ d },
    ghost d_high: { d ≤ 6 },
    ghost long: { length at ≡ 6 },
    ghost rest: { (j : ℕ) → d ≤ j → slice_index_or at j (pos 0) ≡ pos 0 },
}
