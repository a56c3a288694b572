// The C interface of the whole decoder: the four public jobs. Parameters of components and answers are those of the transform's interface.
#![tactic(auto)]

ghost use Rattle.std.specs.Prelude.{◌≡◌};
ghost use Rattle.unpack.specs.Job.{outcome as unpack_outcome, unpacked};
ghost use Rattle.transform.specs.Job.{outcome as synthesis_outcome, synthesised};
ghost use Rattle.decode.specs.Job.{outcome as decode_outcome, decoded};
ghost use Rattle.slices.specs.Planes.{planes_of};
ghost use Rattle.low_delay.specs.Job.{outcome as low_delay_outcome, unpacked as low_delay_unpacked};
ghost use Rattle.transform_c.specs.Interface.{parameters_of, answer_of};
ghost use Rattle.kafsillun_c.specs.Interface.{low_delay_of};

use component::parameters::{Answer, Parameters};
use low_delay::parameters::LowDelay;
use slices::parameters::Picture;
use transform_c::{KafsillunAnswer, KafsillunParameters};

// unpack::unpack: coefficients from bytes.
#[unsafe(no_mangle)]
pub extern "C" fn kafsillun_unpack(
    p: KafsillunParameters,
    bytes: &[u8],
    coefficients: &mut [i32],
) -> KafsillunAnswer
    ensures { unpack_outcome (answer_of result) coefficients.new ≡ unpacked (parameters_of p) bytes.now coefficients.old }
{
    let answer = unpack::unpack(Parameters::from(p), bytes, coefficients);
    KafsillunAnswer::from(Answer::from(answer))
}

// transform_c::kafsillun_synthesise: samples from coefficients. An archive exports the functions of its own crate alone, so it stands here
// again.
#[unsafe(no_mangle)]
pub extern "C" fn kafsillun_synthesise(
    p: KafsillunParameters,
    coefficients: &[i32],
    work: &mut [i32],
    samples: &mut [i32],
) -> KafsillunAnswer
    ensures { synthesis_outcome (answer_of result) work.new samples.new
        ≡ synthesised (parameters_of p) coefficients.now work.old samples.old }
{
    transform_c::kafsillun_synthesise(p, coefficients, work, samples)
}

// decode::decode: coefficients and samples from bytes.
#[unsafe(no_mangle)]
pub extern "C" fn kafsillun_decode(
    p: KafsillunParameters,
    bytes: &[u8],
    coefficients: &mut [i32],
    work: &mut [i32],
    samples: &mut [i32],
) -> KafsillunAnswer
    ensures { decode_outcome (answer_of result) coefficients.new work.new samples.new
        ≡ decoded (parameters_of p) bytes.now coefficients.old work.old samples.old }
{
    let answer = decode::decode(Parameters::from(p), bytes, coefficients, work, samples);
    KafsillunAnswer::from(Answer::from(answer))
}

// The parameters of a picture in low delay slices, as C passes them. An intra flag that is not 0 says yes.
#[repr(C)]
#[derive(Clone, Copy)]
pub struct KafsillunLowDelay {
    pub luma_width: u32,
    pub luma_height: u32,
    pub chroma_width: u32,
    pub chroma_height: u32,
    pub depth: u32,
    pub intra: u32,
    pub slices_across: u32,
    pub slices_down: u32,
    pub numerator: u32,
    pub denominator: u32,
    pub matrix: [u32; 13],
}

// The parameters that those of C stand for.
impl From<KafsillunLowDelay> for LowDelay {
    ghost from_gives = { λ p q. q ≡ low_delay_of p };

    #[tactic(auto, unfolding(crate::specs::Interface::low_delay_of))]
    fn from(p: KafsillunLowDelay) -> LowDelay {
        let matrix = p.matrix;
        let picture = Picture {
            luma_width: p.luma_width,
            luma_height: p.luma_height,
            chroma_width: p.chroma_width,
            chroma_height: p.chroma_height,
            depth: p.depth,
            intra: p.intra != 0,
            slices_across: p.slices_across,
            slices_down: p.slices_down,
            matrix,
        };
        LowDelay {
            picture,
            numerator: p.numerator,
            denominator: p.denominator,
        }
    }
}

// low_delay::unpack_low_delay: coefficients of three components from bytes.
#[unsafe(no_mangle)]
pub extern "C" fn kafsillun_unpack_low_delay(
    p: KafsillunLowDelay,
    bytes: &[u8],
    luma: &mut [i32],
    first_chroma: &mut [i32],
    second_chroma: &mut [i32],
) -> KafsillunAnswer
    ensures { low_delay_outcome (answer_of result) luma.new first_chroma.new second_chroma.new
        ≡ low_delay_unpacked (low_delay_of p) bytes.now
        (planes_of luma.old first_chroma.old second_chroma.old) }
{
    let answer = low_delay::unpack_low_delay(
        LowDelay::from(p),
        bytes,
        luma,
        first_chroma,
        second_chroma,
    );
    KafsillunAnswer::from(Answer::from(answer))
}
