// A list of up to six numbers, one for each axis, kept in an array.
ghost use Rattle.std.specs.Prelude.{◌≡◌, ◌-◌, ◌≤◌, ◌++◌, length, replicate};

// The numbers, and then `rest` up to the sixth place.
pub fn padded<T: Copy>(numbers: &[T], rest: T) -> [T; 6]
    requires { length numbers.now ≤ 6 }
    ensures { result ≡ numbers.now ++ replicate (6 - length numbers.now) rest }
{
    let mut all = [rest; 6];
    all[..numbers.len()].copy_from_slice(numbers);
    all
}
