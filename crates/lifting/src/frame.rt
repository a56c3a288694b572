// Where the picture of a level stands in a plane: how far apart its rows are, and the size of its bands, which is half its own.
#[derive(Clone, Copy)]
pub struct Frame {
    pub stride: usize,
    pub band_rows: usize,
    pub band_columns: usize,
}
