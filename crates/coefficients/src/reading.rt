// What reading is about: how far it has come, where it stands in its data, what it fills, and what sizes are dequantised by.
ghost use Rattle.std.specs.Prelude.{◌<◌, ◌^◌};

use base::status::Fault;

// A position in data: the next bit, and the bit at which the data end. Past data of a stated length bits read as 1; other data are what is at
// hand of longer ones. The data's first bit is bit `origin` of all the bytes. That it stands within its data (`Sound`) is said by contracts, since the
// definitions of what is read make cursors of plain numbers.
#[derive(Clone, Copy)]
pub struct Cursor {
    pub bit: usize,
    pub end: usize,
    pub stated: bool,
    pub origin: usize,
}

// How many values were read, the bit that reading has come to or its refusal, and whether reading stopped for want of bits. A refusal's bit is
// counted from the start of all the bytes. A portion that is short goes on at its bit as any other does, so this stands beside the bit.
#[derive(Clone, Copy)]
pub struct Portion {
    pub count: usize,
    pub progress: Result<usize, Fault>,
    pub short: bool,
}

// A rectangle of a plane: its first entry, and how far apart its rows are.
#[derive(Clone, Copy)]
pub struct Rectangle {
    pub start: usize,
    pub stride: usize,
    pub width: usize,
    pub height: usize,
}

// What a size is dequantised by: so small that every size of 32 bits has room in 63.
#[derive(Clone, Copy)]
pub struct Quantiser {
    pub factor: u64,
    pub offset: u64,
    pub ghost factor_small: { factor < 2 ^ 31 },
    pub ghost offset_small: { offset < 2 ^ 31 },
}
