// Document 01, "One subband": codeblocks, with their flags.
#![tactic(auto)]

ghost use Rattle.std.specs.Prelude.{◌≡◌, cond, ◌+◌, ◌*◌, ◌≤◌, ◌<◌};
ghost use Rattle.component.specs.Reciprocal.{reciprocal_of};
ghost use Rattle.coefficients.specs.Scaling.{scale_of};
ghost use Rattle.coefficients.specs.Portions.{Sound};
ghost use Rattle.codeblocks.specs.Blocks.{count_of, Counted, Placed, block_at, block_before};
ghost use Rattle.codeblocks.specs.Flags.{Flagged};
ghost use Rattle.codeblocks.specs.Rest.{ClearBlocks};
ghost use Rattle.codeblocks.specs.Portions.{BlocksRead};

use base::status::Fault;
use coefficients::reading::{Cursor, Rectangle};
use coefficients::values::Decoder;
use component::partition::{part_start, part_start_by, reciprocal_of};
use component::subbands::Subband;
use exp_golomb::bits::take_bit;
use rectangles::read_values;

// The codeblocks of a subband: its rectangle of a plane whose rows are a stride apart, and their counts across and down.
#[derive(Clone, Copy)]
pub struct CodeblockGrid {
    pub stride: usize,
    pub subband: Subband,
    pub across: usize,
    pub down: usize,
}

// How many codeblocks have been begun, and how many values of the last of them have been read.
#[derive(Clone, Copy)]
pub struct Position {
    pub begun: usize,
    pub values: usize,
}

// Where reading stands among the codeblocks, the bit that it has come to or its refusal, and whether it stopped for want of bits. The flag stays
// beside them: what BlocksRead promises of the position and the bit holds where bits are wanting too.
#[derive(Clone, Copy)]
pub struct Reached {
    pub position: Position,
    pub progress: Result<usize, Fault>,
    pub short: bool,
}

// A codeblock: its column among the codeblocks, the column of the subband that it goes up to, and its rectangle.
#[derive(Clone, Copy)]
pub struct PlacedCodeblock {
    pub x: usize,
    pub right: usize,
    pub area: Rectangle,
}

// What a flag says: whether it leaves its codeblock zero; and the next bit.
#[derive(Clone, Copy)]
pub struct Flag {
    pub skipped: bool,
    pub bit: usize,
}

// Reads the codeblocks of a subband in raster order, from a value of the one begun last on: of data of a stated length all, or up to a value
// that is refused; of other data until bits are wanting (see coefficients::values::read_run).
pub fn read_codeblocks(
    plane: &mut [i32],
    blocks: CodeblockGrid,
    from: Position,
    bytes: &[u8],
    cursor: Cursor,
    decoder: Decoder,
) -> Reached
    requires { Placed blocks plane.old × (from.begun ≤ count_of blocks) × ClearBlocks blocks from plane.old
        × Sound cursor }
    ensures { BlocksRead bytes.now cursor (scale_of decoder.entry.q) blocks from plane.old result plane.new }
{
    let count = blocks.across * blocks.down;
    let mut position = from;
    let mut block = blocks.block_before(from.begun);
    let reciprocal = reciprocal_of(blocks.across);
    let mut next = cursor;
    // Until the last codeblock is read, a value is refused or bits are wanting: the codeblock begun last comes first, from inside it.
    loop {
        let part = read_values(plane, block.area, position.values, bytes, next, decoder);
        position.values = part.count;
        let Ok(bit) = part.progress else {
            return Reached {
                position,
                progress: part.progress,
                short: false,
            };
        };
        if part.short || count <= position.begun {
            return Reached {
                position,
                progress: part.progress,
                short: part.short,
            };
        }
        next.bit = bit;
        let Some(flag) = read_flag(count, bytes, next) else {
            return Reached {
                position,
                progress: part.progress,
                short: true,
            };
        };
        next.bit = flag.bit;
        block = blocks.next_block(block, position.begun, reciprocal);
        position = Position::at_block(position.begun, block.area, flag.skipped);
    }
}

// Reads a codeblock's flag, where there is more than one codeblock.
fn read_flag(count: usize, bytes: &[u8], cursor: Cursor) -> Option<Flag>
    ensures { Flagged count bytes.now cursor result }
{
    if count == 1 {
        return Some(Flag {
            skipped: false,
            bit: cursor.bit,
        });
    }
    let taken = take_bit(bytes, cursor.end, cursor.stated, cursor.bit)?;
    Some(Flag {
        skipped: taken.bit == 1,
        bit: taken.next,
    })
}

impl Position {
    // The start of a codeblock, after those begun before it: all of its values, if it is skipped, are read.
    fn at_block(before: usize, area: Rectangle, skipped: bool) -> Position
        requires { (before < 65536) × (area.width ≤ 4096) × (area.height ≤ 4096) }
        ensures { (result.begun ≡ before + 1) × (result.values ≡ cond skipped (area.height * area.width) 0) }
    {
        Position {
            begun: before + 1,
            values: if skipped { area.height * area.width } else { 0 },
        }
    }
}

impl CodeblockGrid {
    // Codeblock m, in raster order.
    fn block_at(self, m: usize) -> PlacedCodeblock
        requires { Counted self × (m < count_of self) }
        ensures { result ≡ block_at self m }
    {
        let x = m % self.across;
        let y = m / self.across;
        let s = self.subband;
        let left = part_start(s.width, self.across, x);
        let right = part_start(s.width, self.across, x + 1);
        let top = part_start(s.height, self.down, y);
        let bottom = part_start(s.height, self.down, y + 1);
        let area = Rectangle {
            start: (s.top + top) * self.stride + (s.left + left),
            stride: self.stride,
            width: right - left,
            height: bottom - top,
        };
        PlacedCodeblock { x, right, area }
    }

    // Codeblock m, from the one before it. In a row of codeblocks each starts where the one before it ends.
    fn next_block(self, before: PlacedCodeblock, m: usize, reciprocal: usize) -> PlacedCodeblock
        requires { Counted self × (m < count_of self) × (before ≡ block_before self m) × (reciprocal ≡ reciprocal_of self.across) }
        ensures { result ≡ block_at self m }
    {
        let x = before.x + 1;
        if self.across <= x {
            return self.block_at(m);
        }
        let right = part_start_by(self.subband.width, reciprocal, x + 1);
        let last = before.area;
        let area = Rectangle {
            start: last.start + last.width,
            stride: self.stride,
            width: right - before.right,
            height: last.height,
        };
        PlacedCodeblock { x, right, area }
    }

    // The codeblock begun last, where so many have been begun.
    fn block_before(self, begun: usize) -> PlacedCodeblock
        requires { Counted self × (begun ≤ count_of self) }
        ensures { result ≡ block_before self begun }
    {
        if begun == 0 {
            let area = Rectangle {
                start: 0,
                stride: self.stride,
                width: 0,
                height: 0,
            };
            return PlacedCodeblock {
                x: self.across - 1,
                right: 0,
                area,
            };
        }
        self.block_at(begun - 1)
    }
}
