// Document 02, request Four: what is done to three planes at once.
ghost use Rattle.std.specs.Prelude.{◌≡◌, is_ok, OnOk, ◌*◌, length};
ghost use Rattle.prediction.specs.Prediction.{ended};
ghost use Rattle.slices.specs.Planes.{zeros};
ghost use Rattle.slices.specs.Bounds.{Checked, Lengths, Whole};
ghost use Rattle.slices.specs.Stores.{planes_behind, SamePlanes};
ghost use Rattle.low_delay.specs.Job.{predicted_plane};
ghost use Rattle.low_delay.specs.Bounds.{prediction_fits, predicted_planes};

use base::plane::zero;
use base::status::OutOfRange;
use component::subbands::subband_at;
use prediction::predict;
use slices::areas::grid_of;
use slices::parameters::{Grid, Picture};
use slices::stores::ThreePlanes;

// Puts zeros into three planes.
#[tactic(auto, unfolding(slices::specs::Planes::zeros))]
pub fn zero_planes(planes: &mut ThreePlanes<'_>)
    ensures same { SamePlanes planes.old planes.new }
    ensures zeroed { planes_behind planes.new ≡ zeros (planes_behind planes.old) }
{
    zero(planes.luma);
    zero(planes.first);
    zero(planes.second);
}

// Predicts level 0 of each component, up to a value that does not fit.
pub fn predict_planes(p: Picture, planes: &mut ThreePlanes<'_>) -> Result<(), OutOfRange>
    requires { Checked p × Lengths p planes.old.luma.now planes.old.first.now planes.old.second.now }
    ensures same { SamePlanes planes.old planes.new }
    ensures told { is_ok result ≡ prediction_fits p (planes_behind planes.old) }
    ensures done { OnOk result (planes_behind planes.new ≡ predicted_planes p (planes_behind planes.old)) }
{
    let chroma = grid_of(p, p.chroma_width, p.chroma_height);
    predict_plane(planes.luma, grid_of(p, p.luma_width, p.luma_height))?;
    predict_plane(planes.first, chroma)?;
    predict_plane(planes.second, chroma)
}

// Predicts level 0 of a component, up to a value that does not fit.
fn predict_plane(plane: &mut [i32], g: Grid) -> Result<(), OutOfRange>
    requires { Whole g × (length plane.old ≡ g.width * g.height) }
    ensures { ended (is_ok result) plane.new ≡ predicted_plane g plane.old }
{
    let low = subband_at(g.depth, g.width, g.height, 0);
    predict(plane, g.width, low.width, low.height)
}
