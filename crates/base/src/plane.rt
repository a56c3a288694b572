// Planes of signed 32-bit numbers.
ghost use Rattle.std.specs.Prelude.{◌≡◌, ◌+◌, ◌≤◌, pos, length, get_or};
ghost use Rattle.base.specs.Fill.{fill};
ghost use Rattle.base.specs.Lists.{zeros_like};

// Puts zeros into the whole plane.
pub fn zero(plane: &mut [i32])
    ensures { plane.new ≡ zeros_like plane.old }
{
    plane.fill(0);
}

// Puts n zeros into the plane, from an index on.
pub fn zero_part(plane: &mut [i32], index: usize, n: usize)
    requires { index + n ≤ length plane.old }
    ensures { plane.new ≡ fill plane.old index n (λ x. pos 0) }
{
    plane[index..index + n].fill(0);
}

// Copies n entries of a plane, from one index on, into another plane, from another index on. One by one: of copy_from_slice the back end makes
// calls of memmove, which an archive for C would then need from outside.
pub fn copy(plane: &mut [i32], index: usize, source: &[i32], from: usize, n: usize)
    requires { (index + n ≤ length plane.old) × (from + n ≤ length source.now) }
    ensures { plane.new ≡ fill plane.old index n (λ x. get_or source.now (from + x) (pos 0)) }
{
    for x in 0..n {
        plane[index + x] = source[from + x];
    }
}
