// Document 02, request Four: what the slices of a picture are read by.
ghost use Rattle.std.specs.Prelude.{◌≡◌};
ghost use Rattle.slices.specs.Bounds.{Checked};
ghost use Rattle.low_delay.specs.Bounds.{SoundFraction};

use crate::parameters::LowDelay;
use slices::tables::Tables;

// What the slices of a picture are read by: its parameters, which passed the checks, its bytes, and the tables of its values.
#[derive(Clone, Copy)]
pub struct SliceReader<'a, 't> {
    pub p: LowDelay,
    pub bytes: &'a [u8],
    pub tables: Tables<'t>,
    pub ghost checked: { Checked p.picture },
    pub ghost fraction: { SoundFraction p },
    pub ghost same_intra: { tables.intra ≡ p.picture.intra },
}
