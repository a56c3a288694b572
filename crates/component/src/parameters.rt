// Document 01, "What the decoder covers": the parameters of a component, and what a job answers.
ghost use Rattle.std.specs.Prelude.{◌≡◌};

use base::status::Refusal;

// The parameters of a component. Any value can be passed; a job refuses what is out of range.
#[derive(Clone, Copy)]
pub struct Parameters {
    pub width: u32,
    pub height: u32,
    pub depth: u32,
    pub wavelet: u32,
    pub intra: bool,
    // Codeblock counts for levels 0 to 4, in two arrays as C has them. Those above the depth are not looked at.
    pub codeblocks_across: [u32; 5],
    pub codeblocks_down: [u32; 5],
}

// Why a job refuses, and the place of that.
#[derive(Clone, Copy, Debug, PartialEq, Eq)]
pub struct Refused {
    pub refusal: Refusal,
    pub place: usize,
}

// The checks of parameters and planes have no place but 0.
impl From<Refusal> for Refused {
    ghost from_gives = { λ r e. e ≡ record { refusal = r; place = 0 } };

    fn from(refusal: Refusal) -> Refused {
        Refused { refusal, place: 0 }
    }
}

// What a job answers, in numbers as C and the program's text have it: 0 or a refusal's number, and its place.
#[derive(Clone, Copy, Debug, PartialEq, Eq)]
pub struct Answer {
    pub status: u32,
    pub place: usize,
}

impl From<Result<usize, Refused>> for Answer {
    ghost use Rattle.component.specs.Answers.{answer_of};

    ghost from_gives = { λ r a. a ≡ answer_of r };

    fn from(outcome: Result<usize, Refused>) -> Answer {
        match outcome {
            Ok(place) => Answer { status: 0, place },
            Err(Refused { refusal, place }) => Answer {
                status: refusal.number(),
                place,
            },
        }
    }
}

impl From<Result<(), Refused>> for Answer {
    ghost use Rattle.component.specs.Answers.{bare_answer_of};

    ghost from_gives = { λ r a. a ≡ bare_answer_of r };

    fn from(outcome: Result<(), Refused>) -> Answer {
        Answer::from(outcome.map(|()| 0))
    }
}

// The jobs that take parameters.
#[derive(Clone, Copy)]
pub enum Job {
    Unpack,
    Synthesise,
    Decode,
}

// The lengths of the planes of a job. Unpack has the coefficients alone, and the other two are not looked at.
#[derive(Clone, Copy)]
pub struct Lengths {
    pub coefficients: usize,
    pub work: usize,
    pub samples: usize,
}
