// The lines of a case.
ghost use Rattle.std.specs.Prelude.{◌≤◌, length};

use component::parameters::Answer;
use std::io;
use text::TextBuffer;
use vector_io::{LINE_ROOM, append_answer, print_row};

// Writes the line of a job's case: what it is, the answer, and the plane after it.
pub(crate) fn print_case(
    rt: &impl Print,
    case: &[u8],
    answer: Answer,
    plane: &[i32],
) -> io::Result<()>
    requires { length plane.now ≤ 16 }
{
    let mut line = TextBuffer::<LINE_ROOM>::new();
    append_answer(&mut line, answer);
    line.put_word(b": ");
    line.put_row(plane);
    rt.write_all(case)?;
    rt.write_all(line.as_bytes())
}

// Writes the line of a plane that follows a case: whose it is, and the plane.
pub(crate) fn print_plane(rt: &impl Print, name: &[u8], plane: &[i32]) -> io::Result<()>
    requires { length plane.now ≤ 16 }
{
    rt.write_all(name)?;
    print_row(&mut io::writer(rt), plane)
}
