// Document 01, "A recording": the text that a recording decodes to, part by part.
#![tactic(auto)]

mod planes;
mod results;

ghost use Rattle.std.specs.Prelude.{◌≡◌, ◌<◌, ℕ, length, take};
ghost use Rattle.io.specs.Counts.{IsPrefixLen};
ghost use Rattle.contents.specs.Counts.{nonzero};
ghost use Rattle.contents.specs.Table.{entry_count};
ghost use Rattle.component.specs.Answers.{answer_of};
ghost use Rattle.text.specs.Slices.{Extended};
ghost use Rattle.recording.specs.Output.{plane_length, sample_length, entry_status, body_lines, entry_text};
ghost use Rattle.recording.specs.Parts.{part_count, part};

use crate::planes::{plane_length, sample_length};
use crate::results::put_entry;
use base::status::Refusal;
use component::parameters::{Parameters, Refused};
use contents::table::{FILE_MOST, entry_at};
use decode::decode;
use text::{TextBuffer, TextSlice};

// Room for a recording, with one byte more, which tells that a file is too long.
pub const FILE_ROOM: usize = FILE_MOST + 1;

// The largest padded area of an entry that is decoded.
pub const AREA_MOST: usize = 16384;

// Room for the text of a part: 12 bytes for each sample, and 8,192 for the lines' ends and the heading.
pub const TEXT_ROOM: usize = 204800;

// How many parts the output of a file with so many entries has: one for each entry, or one that says that the table is wrong.
#[tactic(auto, using(crate::proofs::PartsLaws::parts_of))]
pub fn part_count(entries: Option<usize>) -> usize
    ensures { (n : ℕ) → entries ≡ nonzero n → result ≡ part_count n }
{
    entries.unwrap_or(1)
}

// Puts part k of what a file with so many entries decodes to at the start of the text, and answers how long it is. The planes may hold
// anything before and after, and the text anything behind the part.
#[tactic(auto, unfolding(crate::specs::Parts::part, crate::specs::Parts::part_count, contents::specs::Counts::nonzero, text::specs::Text::ascii))]
pub fn output_part(
    file: &[u8],
    entries: Option<usize>,
    k: usize,
    coefficients: &mut [i32; AREA_MOST],
    work: &mut [i32; AREA_MOST],
    samples: &mut [i32; AREA_MOST],
    text: &mut [u8; TEXT_ROOM],
) -> usize
    requires { (entries ≡ nonzero (entry_count file.now)) × (k < part_count (entry_count file.now)) }
    ensures text_after { take result text.new ≡ part file.now k }
    ensures prefix_len { IsPrefixLen result text.new }
{
    let mut text = TextSlice {
        bytes: text,
        end: 0,
    };
    match entries {
        Some(_) => entry_text(file, k, coefficients, work, samples, &mut text),
        None => text.put_word(b"refused 11\n"),
    }
    text.end
}

// Puts the same part into a buffer, in place of its text.
pub fn put_part(
    file: &[u8],
    entries: Option<usize>,
    k: usize,
    coefficients: &mut [i32; AREA_MOST],
    work: &mut [i32; AREA_MOST],
    samples: &mut [i32; AREA_MOST],
    text: &mut TextBuffer<TEXT_ROOM>,
)
    requires { (entries ≡ nonzero (entry_count file.now)) × (k < part_count (entry_count file.now)) }
    ensures { text.new ≡ part file.now k }
{
    text.clear();
    text.end += output_part(
        file,
        entries,
        k,
        coefficients,
        work,
        samples,
        &mut text.bytes,
    );
}

// Puts the lines of entry k of a recording whose table is right.
#[tactic(auto, using(crate::proofs::OutputLaws::plane_most, crate::proofs::OutputLaws::sample_most))]
fn entry_text(
    file: &[u8],
    k: usize,
    coefficients: &mut [i32],
    work: &mut [i32],
    samples: &mut [i32],
    text: &mut TextSlice<'_>,
)
    requires k_bound { k < entry_count file.now }
    requires coefficients_len { (length coefficients.old ≡ 16384) × (length work.old ≡ 16384) × (length samples.old ≡ 16384) }
    requires no_text { text.old.end ≡ 0 }
    requires text_len { length text.old.bytes.now ≡ 204800 }
    ensures { Extended text.old (entry_text file.now k) text.new }
{
    let entry = entry_at(file, k);
    let p = entry.parameters;
    let start = entry.start;
    let end = start + entry.size;
    let area = plane_length(p);
    let count = sample_length(p);
    decoded_text(
        k,
        p,
        &file[start..end],
        &mut coefficients[..area],
        &mut work[..area],
        &mut samples[..count],
        text,
    );
}

// Decodes an entry in planes of the lengths that it needs, and puts its lines.
fn decoded_text(
    k: usize,
    p: Parameters,
    body: &[u8],
    coefficients: &mut [i32],
    work: &mut [i32],
    samples: &mut [i32],
    text: &mut TextSlice<'_>,
)
    requires coefficients_len { (length coefficients.old ≡ plane_length p) × (length work.old ≡ plane_length p)
        × (length samples.old ≡ sample_length p) }
    requires no_text { text.old.end ≡ 0 }
    requires text_len { length text.old.bytes.now ≡ 204800 }
    ensures { Extended text.old (body_lines k p body.now) text.new }
{
    let decoded = decode(p, body, coefficients, work, samples);
    put_entry(text, k, p, entry_result(decoded, body.len()), samples);
}

// Document 02, "Left-over bytes are a fault": what an entry whose body has so many bytes comes to, from what decode answered. It is refused
// where bytes of an accepted one are left over, and the place is decode's.
#[tactic(auto, unfolding(crate::specs::Output::entry_status))]
fn entry_result(decoded: Result<usize, Refused>, size: usize) -> Result<usize, Refused>
    ensures status { (answer_of result).status ≡ entry_status (answer_of decoded).status (answer_of decoded).place size }
    ensures place { (answer_of result).place ≡ (answer_of decoded).place }
{
    let used = decoded?;
    if used == size {
        return Ok(used);
    }
    Err(Refused {
        refusal: Refusal::BytesLeftOver,
        place: used,
    })
}
