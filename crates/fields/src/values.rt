// The values of a field at a vertex.
mod calls;

ghost use Rattle.std.specs.Prelude.{◌≡◌, ◌≤◌, true, length, take};
ghost use Rattle.fields.specs.Scale.{all_on_scale};

// One value for each of k rows, each on the scale. The array is as long as k can be, since the library has no heap.
#[derive(Clone, Copy, Debug)]
pub struct Values {
    k: u8,
    rows: [i16; 3],
    ghost k_low: { 1 ≤ k },
    ghost k_high: { k ≤ 3 },
    ghost long: { length rows ≡ 3 },
    ghost on_scale: { all_on_scale (take k rows) ≡ true },
}
