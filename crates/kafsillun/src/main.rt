// Reads a recording and writes what it decodes to (document 01, "A recording").
#![tactic(auto)]

use contents::table::entry_count;
use recording::{AREA_MOST, FILE_ROOM, TEXT_ROOM, part_count, put_part};
use std::env::{Env, FillError};
use std::fs::File;
use std::io;
use std::io::{ErrorKind, Read, Stderr};
use std::rt::Files;
use text::{TextBuffer, read_full};

// The first argument names the file; with none, the recording is the standard input.
fn main(rt: HostRuntime) -> io::Result<()> {
    let errors = rt.stderr();
    if has_third(&rt) {
        return write_usage(&errors);
    }
    let mut argument = [0u8; 4096];
    match rt.arg(1, &mut argument) {
        Ok(length) => run(&rt, &errors, &argument[..length]),
        Err(FillError::NotPresent) => {
            decode_from(&rt, &errors, &mut rt.stdin(), b"standard input")
        }
        Err(FillError::TooLong) => {
            let error = io::Error::new(ErrorKind::InvalidFilename, "File name too long");
            fail(&rt, &errors, b"the file's name", error)
        }
    }
}

// Whether there is a third word, which the program cannot use; its own name is the first.
fn has_third(rt: &impl Env) -> bool {
    let mut word = [0u8; 1];
    match rt.arg(2, &mut word) {
        Ok(_) | Err(FillError::TooLong) => true,
        Err(FillError::NotPresent) => false,
    }
}

// Does what the argument asks: writes the usage, or decodes the file that it names.
fn run<R: Files + Print + AllocGlobal>(rt: &R, errors: &Stderr, argument: &[u8]) -> io::Result<()> {
    if argument == b"--help".as_slice() {
        return write_usage(rt);
    }
    match open(rt, argument) {
        Ok(mut file) => decode_from(rt, errors, &mut file, argument),
        Err(error) => fail(rt, errors, argument, error),
    }
}

// Opens the file of a name, which has to be text.
fn open<R: Files>(rt: &R, name: &[u8]) -> io::Result<R::File> {
    match std::str::from_utf8(name) {
        Ok(path) => File::open(rt, path),
        Err(_) => Err(io::Error::new(ErrorKind::InvalidFilename, "The name is not UTF-8")),
    }
}

// Decodes the recording that an input gives, or says why it cannot be read. A recording has at most 65,536 bytes, so one byte more
// tells that it is too long.
fn decode_from<R: Print + AllocGlobal>(
    rt: &R,
    errors: &Stderr,
    input: &mut impl Read,
    name: &[u8],
) -> io::Result<()> {
    let mut file = [0u8; FILE_ROOM];
    match read_full(input, &mut file) {
        Ok(count) => write_output(rt, errors, &file[..count]),
        Err(error) => fail(rt, errors, name, error),
    }
}

// Writes what a recording decodes to, part by part.
fn write_output<R: Print + AllocGlobal>(rt: &R, errors: &Stderr, file: &[u8]) -> io::Result<()> {
    let mut coefficients = [0i32; AREA_MOST];
    let mut work = [0i32; AREA_MOST];
    let mut samples = [0i32; AREA_MOST];
    let mut text = TextBuffer::<TEXT_ROOM>::new();
    let entries = entry_count(file);
    for k in 0..part_count(entries) {
        put_part(
            file,
            entries,
            k,
            &mut coefficients,
            &mut work,
            &mut samples,
            &mut text,
        );
        if let Err(error) = rt.write_all(text.as_bytes()) {
            return fail(rt, errors, b"standard output", error);
        }
    }
    Ok(())
}

// Writes a line to the standard error: what failed, and why.
fn fail<R: AllocGlobal>(rt: &R, errors: &Stderr, what: &[u8], error: io::Error) -> io::Result<()> {
    let text = format!(in rt.alloc(); "{error}")?;
    errors.write_all(b"kafsillun: ")?;
    errors.write_all(what)?;
    errors.write_all(b": ")?;
    errors.write_all(reason(text.as_str()).as_bytes())?;
    errors.write_all(b"\n")
}

// The words of an error's text, without the system's number behind them.
fn reason(text: &str) -> &str {
    match text.split_once(" (os error ") {
        Some((words, _)) => words,
        None => text,
    }
}

// Writes how the program is used.
fn write_usage(to: &impl Print) -> io::Result<()> {
    to.write_all(b"usage: kafsillun [FILE]\n\n")?;
    to.write_all(
        b"Decodes the recording in FILE, or in the standard input, and writes, for each entry,\n",
    )?;
    to.write_all(
        b"a line with its sizes and a line for each row of its samples, or one line that says\n",
    )?;
    to.write_all(
        b"by which number and at which place it is refused. 12: bytes of its body are left over,\n",
    )?;
    to.write_all(b"and the place is how many were used. Only `refused 11`: a wrong table.\n")
}
