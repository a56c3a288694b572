// Document 01, "One subband": intra DC prediction of a band, in raster order from values already predicted.
#![tactic(auto)]

ghost use Rattle.std.specs.Prelude.{◌≡◌, true, is_ok, ◌+◌, ◌*◌, ◌^◌, ◌≤◌, ◌<◌, nat_abs, length};
ghost use Rattle.prediction.specs.Prediction.{ended, mean_of, predictor, predicted_value, predicted_row, prediction};

use base::signed;
use base::status::OutOfRange;

// Predicts the values of a band at the top left of a plane, up to one that does not fit.
pub fn predict(
    plane: &mut [i32],
    stride: usize,
    width: usize,
    height: usize,
) -> Result<(), OutOfRange>
    requires { (width ≤ stride) × (stride ≤ 4096) × (height ≤ 4096) × (height * stride ≤ length plane.old) }
    ensures { ended (is_ok result) plane.new ≡ prediction stride width height plane.old }
{
    for y in 0..height {
        predict_row(plane, stride, width, y)?;
    }
    Ok(())
}

// Predicts the values of a row, up to one that does not fit.
fn predict_row(plane: &mut [i32], stride: usize, width: usize, y: usize) -> Result<(), OutOfRange>
    requires { (width ≤ stride) × (y * stride + width ≤ length plane.old) }
    ensures { ended (is_ok result) plane.new ≡ predicted_row stride width y (ended true plane.old) }
{
    for x in 0..width {
        predict_value(plane, stride, y, x)?;
    }
    Ok(())
}

// Predicts one value: adds what its neighbours predict, if the sum fits.
fn predict_value(plane: &mut [i32], stride: usize, y: usize, x: usize) -> Result<(), OutOfRange>
    requires { (x < stride) × (y * stride + x < length plane.old) }
    ensures { ended (is_ok result) plane.new ≡ predicted_value stride y x (ended true plane.old) }
{
    let index = y * stride + x;
    let v = i64::from(plane[index]) + predictor_at(plane, stride, y, x);
    plane[index] = signed::try_narrow(v)?;
    Ok(())
}

// What the neighbours of a value predict: nothing at the corner, the left one in the top row, the upper one in the left column, and else
// the mean of three.
fn predictor_at(plane: &[i32], stride: usize, y: usize, x: usize) -> i64
    requires { (x < stride) × (y * stride + x < length plane.now) }
    ensures is { result ≡ predictor stride plane.now y x }
    ensures small { nat_abs result ≤ 2 ^ 34 }
{
    match (y, x) {
        (0, 0) => 0,
        (0, _) => i64::from(plane[x - 1]),
        (_, 0) => i64::from(plane[(y - 1) * stride]),
        _ => {
            let left = y * stride + x - 1;
            let upper = (y - 1) * stride + x;
            mean_of(plane[left], plane[upper - 1], plane[upper])
        }
    }
}

// The mean of three values, rounded as the rules say.
#[tactic(auto, unfolding(crate::specs::Prediction::mean_of))]
fn mean_of(left: i32, corner: i32, upper: i32) -> i64
    ensures is { result ≡ mean_of left corner upper }
    ensures small { nat_abs result ≤ 2 ^ 34 }
{
    signed::third(i64::from(left) + i64::from(corner) + i64::from(upper) + 1)
}
