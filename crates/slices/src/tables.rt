// Document 02, request Four: what values of all slices are decoded by, made once a call.
ghost use Rattle.std.specs.Prelude.{◌≡◌, ◌≤◌, length};
ghost use Rattle.coefficients.specs.Quantiser.{dequantise};
ghost use Rattle.coefficients.specs.Factors.{KnowsFactors};
ghost use Rattle.coefficients.specs.Scaling.{scale_of};
ghost use Rattle.slices.specs.Bounds.{KnowsSmall};

use coefficients::quantiser::{quantiser_by, quantiser_of, small_values};
use coefficients::values::Decoder;
use lookups::CodeTable;

// The table of codes, and the small values and the factor of every quantiser index, in a picture that is intra or not.
#[derive(Clone, Copy)]
pub struct Tables<'a> {
    pub intra: bool,
    pub codes: &'a CodeTable,
    pub small: &'a [[i32; 32]; 116],
    pub factors: &'a [u32; 116],
    pub ghost small_known: { KnowsSmall intra 116 small.now },
    pub ghost factors_known: { KnowsFactors factors.now },
}

impl<'a> Tables<'a> {
    // Tables that are filled.
    pub fn new(
        intra: bool,
        codes: &'a CodeTable,
        small: &'a [[i32; 32]; 116],
        factors: &'a [u32; 116],
    ) -> Tables<'a>
        requires { KnowsSmall intra 116 small.now × KnowsFactors factors.now }
        ensures { result.intra ≡ intra }
    {
        Tables {
            intra,
            codes,
            small,
            factors,
        }
    }

    // What the values of an index are decoded by.
    pub fn decoder(self, index: u32) -> Decoder<'a>
        requires { index ≤ 115 }
        ensures { scale_of result.q ≡ dequantise self.entry.intra index }
    {
        Decoder {
            q: quantiser_by(self.factors, self.intra, index),
            table: self.codes,
            small: &self.small[index as usize],
        }
    }
}

// Puts the small values of every index, in a picture that is intra or not, into a table. Of an index whose small values do not all fit a
// plane they are free. The table is the caller's, so that it stands on the stack once.
pub fn fill_small_table(table: &mut [[i32; 32]; 116], intra: bool)
    requires { length table.old ≡ 116 }
    ensures { KnowsSmall intra 116 table.new }
{
    for (index, small) in table.iter_mut().enumerate() {
        *small = small_values(quantiser_of(intra, index as u32));
    }
}
