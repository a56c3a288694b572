// Document 01, "Dequantising", and document 02, request Three.
ghost use Rattle.std.specs.Prelude.{◌≡◌, true, ◌≤◌, ◌<◌, ◌^◌};
ghost use Rattle.coefficients.specs.Quantiser.{quant_factor, quant_offset, dequantise};
ghost use Rattle.coefficients.specs.Factors.{KnowsFactors};
ghost use Rattle.coefficients.specs.Scaling.{scale_of, small_fit, Small};

use crate::factors::FACTORS;
pub use crate::reading::Quantiser;
use base::signed;

// The quantiser of an index, in a picture that is intra or not. Its numbers are free: whatever they are, sizes become what the index makes of
// them in such a picture.
pub fn quantiser_of(intra: bool, index: u32) -> Quantiser
    requires { index ≤ 115 }
    ensures { scale_of result ≡ dequantise intra index }
{
    let factor = quant_factor(index);
    let offset = quant_offset(intra, index, factor);
    Quantiser { factor, offset }
}

// The same, where the factors of all indices are at hand: a caller with many indices has them made once, which is measured.
pub fn quantiser_by(factors: &[u32; 116], intra: bool, index: u32) -> Quantiser
    requires { (index ≤ 115) × KnowsFactors factors.now }
    ensures { scale_of result ≡ dequantise intra index }
{
    let factor = u64::from(factors[index as usize]);
    let offset = quant_offset(intra, index, factor);
    Quantiser { factor, offset }
}

// A size that was read, dequantised.
pub fn dequantised(q: Quantiser, size: u32) -> u64
    ensures { (result ≡ scale_of q size) × (result < 2 ^ 63) }
{
    if size == 0 {
        return 0;
    }
    (u64::from(size) * q.factor + q.offset + 2) / 4
}

// Whether every size below 15, dequantised, fits a plane.
pub fn small_fit(q: Quantiser) -> bool
    ensures { result ≡ small_fit q }
{
    dequantised(q, 14) < 2147483648
}

// The dequantised values of the sizes below 15, each above and below 0, where all of them fit a plane; where one does not, they are of no
// use, and what stands there is free. The last two entries are free, too. An Option would be asked at each window, where `small_fit` is asked
// already, and slices have a table of 116 of these.
pub fn small_values(q: Quantiser) -> [i32; 32]
    ensures { small_fit q ≡ true → Small (scale_of q) result }
{
    let mut small = [0; 32];
    if !small_fit(q) {
        return small;
    }
    for k in 0..30 {
        let size = (k / 2) as u32;
        small[k] = signed::narrow(signed::with_sign(dequantised(q, size), k % 2 == 1));
    }
    small
}

// The factor of an index.
fn quant_factor(index: u32) -> u64
    requires { index ≤ 115 }
    ensures { result ≡ quant_factor index }
{
    u64::from(factor_table()[index as usize])
}

// The factors of all indices.
pub fn factor_table() -> [u32; 116]
    ensures { KnowsFactors result }
{
    FACTORS
}

// The offset of an index, whose factor is at hand.
fn quant_offset(intra: bool, index: u32, factor: u64) -> u64
    requires { (index ≤ 115) × (factor ≡ quant_factor index) }
    ensures { result ≡ quant_offset intra index }
{
    if index == 0 {
        return 1;
    }
    // By both rules.
    if index == 1 {
        return 2;
    }
    // floor((factor + 1)/2) is floor((4 · factor + 4)/8).
    let eighths = if intra { 4 } else { 3 };
    (eighths * factor + 4) / 8
}
