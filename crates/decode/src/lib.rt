// Document 01, "What the decoder covers": the decode job, from bytes to samples.
#![tactic(auto)]

ghost use Rattle.std.specs.Prelude.{◌≡◌};
ghost use Rattle.component.specs.Answers.{answer_of};
ghost use Rattle.decode.specs.Job.{outcome, decoded};

use base::plane::zero;
use component::checks::check;
use component::parameters::{Job, Lengths, Parameters, Refused};
use transform::synthesise;
use unpack::unpack;

// Reads the coefficients of a component from its bytes and makes samples of them. Refusals 1 to 5 change no plane; 6 to 10 leave zeros in
// all three. After acceptance work is all zeros, and the place is the number of bytes used.
pub fn decode(
    p: Parameters,
    bytes: &[u8],
    coefficients: &mut [i32],
    work: &mut [i32],
    samples: &mut [i32],
) -> Result<usize, Refused>
    ensures { outcome (answer_of result) coefficients.new work.new samples.new
        ≡ decoded p bytes.now coefficients.old work.old samples.old }
{
    let lengths = Lengths {
        coefficients: coefficients.len(),
        work: work.len(),
        samples: samples.len(),
    };
    check(Job::Decode, p, lengths)?;
    let used = match unpack(p, bytes, coefficients) {
        Ok(count) => count,
        Err(refused) => {
            zero(work);
            zero(samples);
            return Err(refused);
        }
    };
    if let Err(refused) = synthesise(p, coefficients, work, samples) {
        zero(coefficients);
        return Err(refused);
    }
    Ok(used)
}
