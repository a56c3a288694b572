// Document 01, "A recording": the contents, and the checks behind refusal 11.
ghost use Rattle.std.specs.Prelude.{◌≡◌, ◌&&◌, ◌+◌, ◌≤◌, ◌<◌, eqb, length};
ghost use Rattle.base.specs.Every.{all_below};
ghost use Rattle.contents.specs.Counts.{nonzero};
ghost use Rattle.contents.specs.Table.{stated_count, entry_offset, codeblock_count, codeblock_counts, parameters_at, body_start, entry_is_right, table_is_right, entry_count, entry_at};

use crate::bytes::{byte_at, four_bytes_at, two_bytes_at};
use component::parameters::Parameters;

// The most bytes that a recording has.
pub const FILE_MOST: usize = 65536;

// The most entries that a recording has.
const ENTRIES_MOST: usize = 16;

// How many bytes of the table an entry takes.
const ENTRY_SIZE: usize = 26;

// What an entry says: the parameters of its component, where its body starts in the file, and how many bytes that has.
#[derive(Clone, Copy)]
pub struct Entry {
    pub parameters: Parameters,
    pub start: usize,
    pub size: usize,
}

// How many entries a recording has, where its table is right.
#[tactic(auto, unfolding(crate::specs::Table::entry_count, crate::specs::Counts::nonzero))]
pub fn entry_count(file: &[u8]) -> Option<usize>
    ensures { result ≡ nonzero (entry_count file.now) }
{
    if table_is_right(file) {
        Some(stated_count(file))
    } else {
        None
    }
}

// Entry k of a recording whose table is right.
#[tactic(auto, unfolding(crate::specs::Table::entry_at, crate::specs::Table::offset_at, crate::specs::Table::length_at), using(crate::proofs::TableLaws::entries_bounded, crate::proofs::TableLaws::offset_right))]
pub fn entry_at(file: &[u8], k: usize) -> Entry
    requires { k < entry_count file.now }
    ensures { result ≡ entry_at file.now k }
{
    let offset = entry_offset(k);
    Entry {
        parameters: parameters_at(file, k),
        start: four_bytes_at(file, offset + 18),
        size: four_bytes_at(file, offset + 22),
    }
}

// The parameters of entry k.
#[tactic(auto, unfolding(crate::specs::Table::parameters_at))]
fn parameters_at(file: &[u8], k: usize) -> Parameters
    requires { (k < 16) × (entry_offset (k + 1) ≤ length file.now) }
    ensures { result ≡ parameters_at file.now k }
{
    let offset = entry_offset(k);
    Parameters {
        width: two_bytes_at(file, offset),
        height: two_bytes_at(file, offset + 2),
        depth: byte_at(file, offset + 4),
        wavelet: byte_at(file, offset + 5),
        intra: byte_at(file, offset + 6) == 1,
        codeblocks_across: codeblock_counts(file, offset + 8),
        codeblocks_down: codeblock_counts(file, offset + 9),
    }
}

// Whether the file keeps to the rules for the contents.
#[tactic(auto, unfolding(crate::specs::Table::table_is_right))]
fn table_is_right(file: &[u8]) -> bool
    ensures { result ≡ table_is_right file.now }
{
    let count = stated_count(file);
    file.len() <= FILE_MOST
        && 1 <= count
        && count <= ENTRIES_MOST
        && entry_offset(count) <= file.len()
        && bodies_are_right(file, count)
}

// Whether every entry keeps to the rules, and the last body ends the file.
fn bodies_are_right(file: &[u8], count: usize) -> bool
    requires { (count ≡ stated_count file.now) × (count ≤ 16) × (entry_offset count ≤ length file.now) }
    ensures { result ≡ all_below count (entry_is_right file.now) && eqb (body_start file.now count) (length file.now) }
{
    let mut end = entry_offset(count);
    for k in 0..count {
        if !entry_is_right(file, k, end) {
            return false;
        }
        end += four_bytes_at(file, entry_offset(k) + 22);
    }
    end == file.len()
}

// Whether entry k keeps to the rules, where its body has to start at `start`.
#[tactic(auto, unfolding(crate::specs::Table::entry_is_right, crate::specs::Table::offset_at))]
fn entry_is_right(file: &[u8], k: usize, start: usize) -> bool
    requires { (k < 16) × (entry_offset (k + 1) ≤ length file.now) × (start ≡ body_start file.now k) }
    ensures { result ≡ entry_is_right file.now k }
{
    let offset = entry_offset(k);
    byte_at(file, offset + 6) <= 1
        && byte_at(file, offset + 7) == 0
        && four_bytes_at(file, offset + 18) == start
}

// The number of entries that the first byte states, 0 where there is none.
fn stated_count(file: &[u8]) -> usize
    ensures { result ≡ stated_count file.now }
{
    match file.first() {
        Some(count) => usize::from(*count),
        None => 0,
    }
}

// Where entry k starts; after the last, where the table ends.
fn entry_offset(k: usize) -> usize
    requires { k ≤ 16 }
    ensures { result ≡ entry_offset k }
{
    1 + ENTRY_SIZE * k
}

// The codeblock counts of five levels, which stand in every other byte from an offset on.
#[tactic(auto, unfolding(crate::specs::Table::codeblock_counts))]
fn codeblock_counts(file: &[u8], at: usize) -> [u32; 5]
    requires { at + 8 < length file.now }
    ensures { result ≡ codeblock_counts file.now at }
{
    [
        codeblock_count(byte_at(file, at)),
        codeblock_count(byte_at(file, at + 2)),
        codeblock_count(byte_at(file, at + 4)),
        codeblock_count(byte_at(file, at + 6)),
        codeblock_count(byte_at(file, at + 8)),
    ]
}

// A codeblock count as a byte states it, 0 for the default. The maximum of the byte and 1 is the same, but does not say so.
#[tactic(auto, unfolding(crate::specs::Table::codeblock_count))]
fn codeblock_count(byte: u32) -> u32
    ensures { result ≡ codeblock_count byte }
{
    if byte == 0 { 1 } else { byte }
}
