// The C interface of the transform, which is shipped without the unpacker; and the parameters and answers of every C function.
#![tactic(auto)]

ghost use Rattle.std.specs.Prelude.{◌≡◌};
ghost use Rattle.transform.specs.Job.{outcome, synthesised};
ghost use Rattle.transform_c.specs.Interface.{parameters_of, answer_of};

use component::parameters::{Answer, Parameters};

// The parameters of a component, as C passes them. An intra flag that is not 0 says yes.
#[repr(C)]
#[derive(Clone, Copy)]
pub struct KafsillunParameters {
    pub width: u32,
    pub height: u32,
    pub depth: u32,
    pub wavelet: u32,
    pub intra: u32,
    pub codeblocks_across: [u32; 5],
    pub codeblocks_down: [u32; 5],
}

// What a job answers, as C gets it.
#[repr(C)]
#[derive(Clone, Copy)]
pub struct KafsillunAnswer {
    pub status: u32,
    pub place: usize,
}

// The parameters that those of C stand for.
impl From<KafsillunParameters> for Parameters {
    ghost from_gives = { λ p q. q ≡ parameters_of p };

    #[tactic(auto, unfolding(crate::specs::Interface::parameters_of))]
    fn from(p: KafsillunParameters) -> Parameters {
        let across = p.codeblocks_across;
        let down = p.codeblocks_down;
        Parameters {
            width: p.width,
            height: p.height,
            depth: p.depth,
            wavelet: p.wavelet,
            intra: p.intra != 0,
            codeblocks_across: across,
            codeblocks_down: down,
        }
    }
}

// An answer's two numbers, for C.
impl From<Answer> for KafsillunAnswer {
    ghost from_gives = { λ a c. answer_of c ≡ a };

    #[tactic(auto, unfolding(crate::specs::Interface::answer_of))]
    fn from(answer: Answer) -> KafsillunAnswer {
        KafsillunAnswer {
            status: answer.status,
            place: answer.place,
        }
    }
}

// transform::synthesise: samples from coefficients.
#[unsafe(no_mangle)]
pub extern "C" fn kafsillun_synthesise(
    p: KafsillunParameters,
    coefficients: &[i32],
    work: &mut [i32],
    samples: &mut [i32],
) -> KafsillunAnswer
    ensures { outcome (answer_of result) work.new samples.new
        ≡ synthesised (parameters_of p) coefficients.now work.old samples.old }
{
    let answer = transform::synthesise(Parameters::from(p), coefficients, work, samples);
    KafsillunAnswer::from(Answer::from(answer))
}
