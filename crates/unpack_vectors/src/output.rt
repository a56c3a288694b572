// The line that says what a job was, with its answer.
use component::parameters::{Answer, Parameters};
use std::io;
use text::TextBuffer;
use vector_io::{LINE_ROOM, append_answer, append_job, append_named};

// Writes the line of a job and its answer.
pub(crate) fn print_answer(
    rt: &impl Print,
    p: Parameters,
    bytes: usize,
    answer: Answer,
) -> io::Result<()> {
    let mut line = TextBuffer::<LINE_ROOM>::new();
    append_job(&mut line, p);
    append_named(&mut line, b" intra ", u64::from(p.intra));
    append_named(&mut line, b" bytes ", bytes as u64);
    append_answer(&mut line, answer);
    line.put_word(b"\n");
    rt.write_all(line.as_bytes())
}
