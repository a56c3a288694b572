// Signed arithmetic: each function is one operation, with its meaning in whole numbers.
ghost use Rattle.std.specs.Prelude.{◌≡◌, true, ◌<◌, ◌^◌, is_ok, IfOk};
ghost use Rattle.base.specs.Range.{fits32};
ghost use Rattle.base.specs.Floor.{floor_div};
ghost use Rattle.base.specs.Sign.{with_sign};

use crate::status::OutOfRange;

// The number as a plane's entry.
pub fn narrow(x: i64) -> i32
    requires { fits32 x ≡ true }
    ensures { result ≡ x }
{
    x as i32
}

// The same of any number: an error where it does not fit.
pub fn try_narrow(x: i64) -> Result<i32, OutOfRange>
    ensures told { is_ok result ≡ fits32 x }
    ensures same { IfOk result (λ entry. entry ≡ x) }
{
    Ok(i32::try_from(x)?)
}

// A third of the number, rounded down.
pub fn third(x: i64) -> i64
    ensures { result ≡ floor_div x 3 }
{
    x.div_euclid(3)
}

// The number of a size and a sign.
pub fn with_sign(size: u64, minus: bool) -> i64
    requires { size < 2 ^ 63 }
    ensures { result ≡ with_sign size minus }
{
    let n = size as i64;
    if minus { -n } else { n }
}
