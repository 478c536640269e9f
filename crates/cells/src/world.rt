// The world: every coordinate of every vertex of a cell lies in it.
ghost use Rattle.std.specs.Prelude.{◌≡◌};
ghost use Rattle.cells.specs.World.{in_world};

pub const WORLD_LOW: i32 = -10_000;

pub const WORLD_HIGH: i32 = 10_000;

pub fn is_in_world(x: i32) -> bool
    ensures { result ≡ in_world x }
{
    (WORLD_LOW..=WORLD_HIGH).contains(&x)
}
