// The C interface of the transform, as an archive of its own: the one function of the delivery without an unpacker.
#![tactic(auto)]

ghost use Rattle.std.specs.Prelude.{◌≡◌};
ghost use Rattle.transform.specs.Job.{outcome, synthesised};
ghost use Rattle.transform_c.specs.Interface.{parameters_of, answer_of};

use transform_c::{KafsillunAnswer, KafsillunParameters};

// transform_c::kafsillun_synthesise: samples from coefficients. An archive exports the functions of its own crate alone, so it stands here
// again.
#[unsafe(no_mangle)]
pub extern "C" fn kafsillun_synthesise(
    p: KafsillunParameters,
    coefficients: &[i32],
    work: &mut [i32],
    samples: &mut [i32],
) -> KafsillunAnswer
    ensures { outcome (answer_of result) work.new samples.new
        ≡ synthesised (parameters_of p) coefficients.now work.old samples.old }
{
    transform_c::kafsillun_synthesise(p, coefficients, work, samples)
}
