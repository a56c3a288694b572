// Document 01, "A recording": the lines of an entry.
ghost use Rattle.std.specs.Prelude.{◌≡◌, ◌+◌, ◌*◌, ◌≤◌, length};
ghost use Rattle.base.specs.Refusals.{number_of};
ghost use Rattle.component.specs.Answers.{answer_of};
ghost use Rattle.text.specs.Slices.{Extended};
ghost use Rattle.recording.specs.Output.{heading, size_text, picture_text, refusal_text, entry_lines};

use component::parameters::{Parameters, Refused};
use text::TextSlice;

// Puts the lines of entry k into a text with nothing in it: its samples, or its refusal.
#[tactic(auto, unfolding(crate::specs::Output::entry_lines))]
pub fn put_entry(
    text: &mut TextSlice<'_>,
    k: usize,
    p: Parameters,
    entry: Result<usize, Refused>,
    samples: &[i32],
)
    requires no_text { text.old.end ≡ 0 }
    requires text_len { length text.old.bytes.now ≡ 204800 }
    requires samples_len { (answer_of entry).status ≡ 0 →
        (length samples.now ≡ p.width * p.height) × (p.width * p.height ≤ 16384) × (p.height ≤ 4096) }
    ensures { Extended text.old (entry_lines k p (answer_of entry).status (answer_of entry).place samples.now) text.new }
{
    put_heading(text, k);
    match entry {
        Ok(_) => put_picture(text, p, samples),
        Err(refused) => put_refusal(text, refused),
    }
}

// Puts how the first line of entry k starts.
#[tactic(auto, unfolding(crate::specs::Output::heading, text::specs::Text::ascii))]
fn put_heading(text: &mut TextSlice<'_>, k: usize)
    requires { text.old.end + 28 ≤ length text.old.bytes.now }
    ensures put { Extended text.old (heading k) text.new }
    ensures upper_bound { text.new.end ≤ text.old.end + 28 }
{
    text.put_word(b"entry ");
    text.put_decimal(k as u64);
    text.put_word(b": ");
}

// Puts the rest of the line of a refused entry.
#[tactic(auto, unfolding(crate::specs::Output::refusal_text, text::specs::Text::ascii))]
fn put_refusal(text: &mut TextSlice<'_>, refused: Refused)
    requires { text.old.end + 56 ≤ length text.old.bytes.now }
    ensures { Extended text.old (refusal_text (number_of refused.refusal) refused.place) text.new }
{
    text.put_word(b"refused ");
    text.put_decimal(u64::from(refused.refusal.number()));
    text.put_word(b" place ");
    text.put_decimal(refused.place as u64);
    text.put_word(b"\n");
}

// Puts the sizes of an accepted entry, which end its first line.
#[tactic(auto, unfolding(crate::specs::Output::size_text, text::specs::Text::ascii))]
fn put_size(text: &mut TextSlice<'_>, p: Parameters)
    requires { text.old.end + 44 ≤ length text.old.bytes.now }
    ensures put { Extended text.old (size_text p) text.new }
    ensures upper_bound { text.new.end ≤ text.old.end + 44 }
{
    text.put_decimal(u64::from(p.width));
    text.put_word(b" x ");
    text.put_decimal(u64::from(p.height));
    text.put_word(b"\n");
}

// Puts the rest of the lines of an accepted entry.
#[tactic(auto, unfolding(crate::specs::Output::picture_text))]
fn put_picture(text: &mut TextSlice<'_>, p: Parameters, samples: &[i32])
    requires samples_len { length samples.now ≡ p.width * p.height }
    requires height_in_bounds { text.old.end + 12 * (p.width * p.height) + p.height + 65 ≤ length text.old.bytes.now }
    ensures { Extended text.old (picture_text p samples.now) text.new }
{
    put_size(text, p);
    text.put_rows(samples, p.width as usize, p.height as usize);
}
