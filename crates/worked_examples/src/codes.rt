// "31 and 32 data bits", by the reader of number codes itself.
ghost use Rattle.std.specs.Prelude.{◌+◌, ◌≤◌, length};

use exp_golomb::codes::read_unsigned;
use std::io;
use text::TextBuffer;
use vector_io::{LINE_ROOM, append_named};

// Reads codes of 31 data bits, of 32, and of 31 with nothing after them.
pub(crate) fn read_longest_codes(rt: &impl Print) -> io::Result<()> {
    read_and_print(
        rt,
        b"code of 31 data bits, each 0",
        b"\x00\x00\x00\x00\x00\x00\x00\x02",
        64,
        false,
    )?;
    read_and_print(
        rt,
        b"code of 31 data bits, each 1",
        b"\x55\x55\x55\x55\x55\x55\x55\x56",
        64,
        false,
    )?;
    read_and_print(
        rt,
        b"code of 32 data bits",
        b"\x55\x55\x55\x55\x55\x55\x55\x55\x80",
        72,
        false,
    )?;
    read_and_print(
        rt,
        b"code that ends after its 31st data bit, in a header",
        b"\x55\x55\x55\x55\x55\x55\x55\x55",
        62,
        false,
    )?;
    read_and_print(
        rt,
        b"code that ends after its 31st data bit, in block data",
        b"\x55\x55\x55\x55\x55\x55\x55\x55",
        62,
        true,
    )
}

// Reads the number at the start of data that end at bit `end`, and writes the line of the case.
fn read_and_print(
    rt: &impl Print,
    case: &[u8],
    bytes: &[u8],
    end: usize,
    stated: bool,
) -> io::Result<()> {
    let number = read_unsigned(bytes, end, stated, 0);
    let mut line = TextBuffer::<LINE_ROOM>::new();
    match number {
        Ok(read) => {
            put_end(&mut line, 0, read.next);
            append_named(&mut line, b": ", u64::from(read.size));
        }
        Err(fault) => put_end(&mut line, fault.refusal.number(), fault.bit),
    }
    line.put_word(b"\n");
    rt.write_all(case)?;
    rt.write_all(line.as_bytes())
}

// Puts the status of a number, and the bit after those taken.
fn put_end(text: &mut TextBuffer<LINE_ROOM>, status: u32, next: usize)
    requires { length text.old + 60 ≤ 4096 }
    ensures { length text.new ≤ length text.old + 60 }
{
    append_named(text, b": status ", u64::from(status));
    append_named(text, b" next bit ", next as u64);
}
