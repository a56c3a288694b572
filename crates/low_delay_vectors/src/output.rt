// The line that says what a job was, with its answer.
ghost use Rattle.std.specs.Prelude.{◌+◌, ◌≤◌, length};

use component::parameters::Answer;
use low_delay::parameters::LowDelay;
use slices::parameters::Picture;
use std::io;
use text::TextBuffer;
use vector_io::{LINE_ROOM, append_answer, append_named};

// Writes the line of a job and its answer.
pub(crate) fn print_answer(
    rt: &impl Print,
    p: LowDelay,
    bytes: usize,
    answer: Answer,
) -> io::Result<()> {
    let mut line = TextBuffer::<LINE_ROOM>::new();
    put_picture(&mut line, p.picture);
    append_named(&mut line, b" of ", u64::from(p.numerator));
    append_named(&mut line, b"/", u64::from(p.denominator));
    append_named(&mut line, b" bytes ", bytes as u64);
    append_answer(&mut line, answer);
    line.put_word(b"\n");
    rt.write_all(line.as_bytes())
}

// Puts what the picture of a job is.
fn put_picture(text: &mut TextBuffer<LINE_ROOM>, p: Picture)
    requires { length text.old + 196 ≤ 4096 }
    ensures { length text.new ≤ length text.old + 196 }
{
    put_pair(text, b"", p.luma_width, p.luma_height);
    put_pair(text, b" chroma ", p.chroma_width, p.chroma_height);
    append_named(text, b" depth ", u64::from(p.depth));
    append_named(text, b" intra ", u64::from(p.intra));
    put_pair(text, b" slices ", p.slices_across, p.slices_down);
}

// Puts a name and two numbers, one across and one down.
fn put_pair(text: &mut TextBuffer<LINE_ROOM>, name: &[u8], across: u32, down: u32)
    requires { length text.old + length name.now + 41 ≤ 4096 }
    ensures { length text.new ≤ length text.old + length name.now + 41 }
{
    append_named(text, name, u64::from(across));
    append_named(text, b"x", u64::from(down));
}
