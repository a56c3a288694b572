// The text of the output: a line for each job, and a line for each row of samples.
ghost use Rattle.std.specs.Prelude.{◌≤◌};

use component::parameters::{Answer, Parameters};
use std::io;
use text::TextBuffer;
use vector_io::{LINE_ROOM, append_answer, append_job, print_row};

// Writes the line of a job and its answer.
pub(crate) fn print_answer(rt: &impl Print, p: Parameters, answer: Answer) -> io::Result<()> {
    let mut line = TextBuffer::<LINE_ROOM>::new();
    append_job(&mut line, p);
    append_answer(&mut line, answer);
    line.put_word(b"\n");
    rt.write_all(line.as_bytes())
}

// Writes the rows of a picture, a line each.
pub(crate) fn print_rows(rt: &impl Print, samples: &[i32], width: usize) -> io::Result<()>
    requires { (1 ≤ width) × (width ≤ 4096) }
{
    for row in samples.chunks_exact(width) {
        print_row(&mut io::writer(rt), row)?;
    }
    Ok(())
}
