// Document 02, request Four: what comes after all slices.
ghost use Rattle.std.specs.Prelude.{◌≡◌};
ghost use Rattle.component.specs.Answers.{answer_of};
ghost use Rattle.slices.specs.Bounds.{Checked, Lengths};
ghost use Rattle.slices.specs.Stores.{planes_behind, SamePlanes};
ghost use Rattle.low_delay.specs.Job.{outcome, finished};
ghost use Rattle.low_delay.specs.Bounds.{SoundFraction};

use crate::parameters::LowDelay;
use crate::planes::{predict_planes, zero_planes};
use crate::starts::{slice_count, slice_start};
use base::status::{OutOfRange, Refusal};
use component::parameters::Refused;
use slices::stores::ThreePlanes;

// Predicts the planes of an intra picture, and answers for the call. A predicted value that does not fit leaves zeros.
pub fn finish(p: LowDelay, planes: &mut ThreePlanes<'_>) -> Result<usize, Refused>
    requires { Checked p.picture × SoundFraction p
        × Lengths p.picture planes.old.luma.now planes.old.first.now planes.old.second.now }
    ensures same { SamePlanes planes.old planes.new }
    ensures ended { outcome (answer_of result) planes.new.luma.now planes.new.first.now planes.new.second.now
        ≡ finished p (planes_behind planes.old) }
{
    let picture = p.picture;
    let count = slice_count(picture);
    let used = slice_start(p, count);
    if !picture.intra {
        return Ok(used);
    }
    match predict_planes(picture, planes) {
        Ok(()) => Ok(used),
        Err(OutOfRange) => {
            zero_planes(planes);
            Err(Refused {
                refusal: Refusal::ValueOutOfRange,
                place: count,
            })
        }
    }
}
