// A frame: how many axes and rows a field has, and the sides of its box.
mod boxes;
mod calls;

ghost use Rattle.std.specs.Prelude.{◌≡◌, ℕ, ◌<◌, ◌≤◌, length, slice_index};

// The places from d on hold 0, so that frames with the same numbers are equal.
// An array and its length: the library has no heap, and an `ArrayVec` is not `Copy`.
// No `Model`: the layers above read these facts off the fields, without a call.
#[derive(Clone, Copy, Debug)]
pub struct Frame {
    d: u8,
    k: u8,
    sides: [u16; 6],
    ghost d_low: { 2 ≤ d },
    ghost d_high: { d ≤ 6 },
    ghost k_low: { 1 ≤ k },
    ghost k_high: { k ≤ 3 },
    ghost k_below: { k < d },
    ghost long: { length sides ≡ 6 },
    ghost side_low: { (j : ℕ) → j < d → 1 ≤ slice_index sides j },
    ghost side_high: { (j : ℕ) → j < d → slice_index sides j ≤ 1000 },
    ghost rest: { (j : ℕ) → d ≤ j → slice_index sides j ≡ 0 },
}
