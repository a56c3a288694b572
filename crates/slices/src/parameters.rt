// Document 02, request Four: the parameters of a picture in slices.
ghost use Rattle.std.specs.Prelude.{◌≡◌, ◌*◌, ◌≤◌};
ghost use Rattle.slices.specs.Stores.{turns};

// What every kind of slices takes. Any value can be passed; a job refuses what is out of range. C passes such a value, and definitions are about
// it, so what a job has found (`Checked`) is said by the types that hold a picture after that (SlicePart), and by contracts where there is none yet.
#[derive(Clone, Copy)]
pub struct Picture {
    pub luma_width: u32,
    pub luma_height: u32,
    pub chroma_width: u32,
    pub chroma_height: u32,
    pub depth: u32,
    pub intra: bool,
    pub slices_across: u32,
    pub slices_down: u32,
    // The quantisation matrix: an entry for each subband in stream order. Those past the last subband are not looked at.
    pub matrix: [u32; 13],
}

// The plane of a component, by its padded sizes, and the counts of the slices that divide it. The definition `grid_of` makes one of any numbers, so
// that they are in range (`Whole`) stands in contracts and not in the type.
#[derive(Clone, Copy)]
pub struct Grid {
    pub depth: usize,
    pub width: usize,
    pub height: usize,
    pub across: usize,
    pub down: usize,
}

// Whose values a part has: luma's, or those of C1 and C2 in turn.
#[derive(Clone, Copy)]
pub enum Holder {
    Luma,
    Both,
}

impl Holder {
    // How many values a part has for so many entries.
    pub fn values_of(self, entries: usize) -> usize
        requires { entries ≤ 16777216 }
        ensures { result ≡ entries * turns self }
    {
        match self {
            Holder::Luma => entries,
            Holder::Both => 2 * entries,
        }
    }
}
