// How large the numbers of a line are: a bound, found in one look at each of them.
ghost use Rattle.std.specs.Prelude.{◌≡◌, suc, ◌+◌, ◌≤◌, pos, length, get_or};
ghost use Rattle.std.specs.Int.Signed.{mag};
ghost use Rattle.base.specs.Fill.{fill};
ghost use Rattle.lines.specs.Buffers.{Within};

// How large the numbers of a line are from an index on: none is larger than the answer and 1.
pub fn measure(line: &[i32], start: usize, width: usize) -> u32
    requires { start + width ≤ length line.now }
    ensures { Within line.now start width (suc result) }
{
    let mut most = 0u32;
    for v in &line[start..start + width] {
        most = join(most, magnitude(*v));
    }
    most
}

// Copies n entries from an index of one plane to an index of another, and measures them.
pub fn copy_measured(plane: &mut [i32], start: usize, source: &[i32], from: usize, n: usize) -> u32
    requires { (start + n ≤ length plane.old) × (from + n ≤ length source.now) }
    ensures copied { plane.new ≡ fill plane.old start n (λ x. get_or source.now (from + x) (pos 0)) }
    ensures measured { Within source.now from n (suc result) }
{
    let mut most = 0u32;
    for x in 0..n {
        let v = source[from + x];
        plane[start + x] = v;
        most = join(most, magnitude(v));
    }
    most
}

// A number that is at least as large as either.
#[tactic(auto, using(std::proofs::lemmas::Nat::le_or_l, std::proofs::lemmas::Nat::le_or_r))]
pub fn join(a: u32, b: u32) -> u32
    ensures { (a ≤ result) × (b ≤ result) }
{
    a | b
}

// How far a number is from 0, or from −1 where it is below 0.
fn magnitude(v: i32) -> u32
    ensures { result ≡ mag v }
{
    if v < 0 { !v as u32 } else { v as u32 }
}
