// Values that were read one after the other, put where they belong: a row of luma, or a row of C1 and one of C2, in turn.
ghost use Rattle.std.specs.Prelude.{◌≡◌, ◌+◌, ◌*◌, ◌≤◌, pos, length, get_or};
ghost use Rattle.base.specs.Fill.{fill};
ghost use Rattle.slices.specs.Stores.{stored_row, stored_rows, planes_behind, SamePlanes, Room, RoomOfRow};

use crate::parameters::Holder;
use base::plane::copy;
use coefficients::reading::Rectangle;

// The planes of luma, C1 and C2.
#[derive(Drop)]
pub struct ThreePlanes<'a> {
    pub luma: &'a mut [i32],
    pub first: &'a mut [i32],
    pub second: &'a mut [i32],
}

impl ThreePlanes<'_> {
    // Puts values of a run into the rows of a rectangle.
    pub fn store_rows(&mut self, holder: Holder, area: Rectangle, run: &[i32])
        requires { Room holder area (planes_behind self.old) run.now }
        ensures same { SamePlanes self.old self.new }
        ensures stored { planes_behind self.new ≡ stored_rows holder area run.now area.height (planes_behind self.old) }
    {
        let values = holder.values_of(area.width);
        for y in 0..area.height {
            let index = area.start + y * area.stride;
            self.store_row(holder, index, area.width, run, y * values);
        }
    }

    // Puts values of a run, from one on, into so many entries of a row.
    fn store_row(&mut self, holder: Holder, index: usize, width: usize, run: &[i32], from: usize)
        requires { RoomOfRow holder index width from (planes_behind self.old) run.now }
        ensures same { SamePlanes self.old self.new }
        ensures stored { planes_behind self.new ≡ stored_row holder index width run.now from (planes_behind self.old) }
    {
        match holder {
            Holder::Luma => copy(self.luma, index, run, from, width),
            Holder::Both => share(self.first, self.second, index, run, from, width),
        }
    }
}

// Puts n pairs of numbers of a source, from one number on, into two planes, from an index on: the first of each into the first.
fn share(first: &mut [i32], second: &mut [i32], index: usize, source: &[i32], from: usize, n: usize)
    requires { (index + n ≤ length first.old) × (index + n ≤ length second.old) × (from + 2 * n ≤ length source.now) }
    ensures first_after { first.new ≡ fill first.old index n (λ x. get_or source.now (from + 2 * x) (pos 0)) }
    ensures second_after { second.new ≡ fill second.old index n (λ x. get_or source.now (from + 2 * x + 1) (pos 0)) }
{
    for x in 0..n {
        first[index + x] = source[from + 2 * x];
        second[index + x] = source[from + 2 * x + 1];
    }
}
