// What writing and reading a sheet share: words by their number, the places of the header's words, the mode
// numbers that a sheet has, and the limits of counts.
#![tactic(auto)]

ghost use Rattle.std.specs.Prelude.{◌≡◌, ◌*◌};
ghost use Rattle.std.proofs.lemmas.List.Edits.{sets};
ghost use Rattle.byte_words.specs.Bytes.{bytes_of, bytes_all};
ghost use Rattle.sheet.specs.Sheets.{word_at, numbers_from, header_of, mode_good, mode_word, counts_good};

use byte_words::{put_word_from, word_from};
use mesh_mode::meant;
use refusal::{MOST_POINTS, MOST_STROKES, MOST_VERTICES};

// The places of the header's words: mode and counts, then the offsets in bytes of starts and numbers.
pub const MODE: usize = 0;

pub const VERTICES: usize = 1;

pub const STROKES: usize = 2;

pub const POINTS: usize = 3;

pub const STARTS_OFFSET: usize = 4;

pub const NUMBERS_OFFSET: usize = 5;

// How many words the header has; the starts follow.
pub const HEADER_WORDS: usize = 6;

// The k-th word; a byte past the end is 0.
pub fn word_at(bytes: &[u8], k: usize) -> u32
    ensures { result ≡ word_at bytes.now k }
{
    if bytes.len() / 4 < k {
        return 0;
    }
    word_from(bytes, k * 4)
}

// Stores the k-th word; past the end nothing.
pub fn put_word(out: &mut [u8], k: usize, w: u32)
    ensures { out.new ≡ sets out.old (k * 4) (bytes_of w) }
{
    if k <= out.len() / 4 {
        put_word_from(out, k * 4, w);
    }
}

// The place of the first number in a sheet of so many strokes: each has one word before the numbers, its start.
pub fn numbers_from(strokes: u32) -> usize
    ensures { result ≡ numbers_from strokes }
{
    HEADER_WORDS + strokes as usize
}

// Whether a sheet may have a mode number in its header: 1, 2 and 3.
pub fn mode_good(mode: u32) -> bool
    ensures { result ≡ mode_good mode }
{
    if 3 < mode {
        return false;
    }
    0 < mode
}

// The number that a sheet stores of a mode number: what it stands for, and 0 where a sheet has none. It is no Option, as it is
// what stands in the header.
pub fn mode_word(mode: u32) -> u32
    ensures { result ≡ mode_word mode }
{
    let m = meant(mode);
    if mode_good(m) {
        return m;
    }
    0
}

// Whether vertices, strokes and points are within their limits.
pub fn counts_good(vertices: usize, strokes: usize, points: usize) -> bool
    ensures { result ≡ counts_good vertices strokes points }
{
    if MOST_VERTICES < vertices {
        return false;
    }
    if MOST_STROKES < strokes {
        return false;
    }
    points <= MOST_POINTS
}

// Stores the header: counts, and the offsets of starts and numbers.
pub fn write_header(out: &mut [u8], mode: u32, vertices: u32, strokes: u32, points: u32)
    ensures { out.new ≡ sets out.old 0 (bytes_all (header_of mode vertices strokes points)) }
{
    put_word(out, MODE, mode);
    put_word(out, VERTICES, vertices);
    put_word(out, STROKES, strokes);
    put_word(out, POINTS, points);
    put_word(out, STARTS_OFFSET, (4 * HEADER_WORDS) as u32);
    put_word(
        out,
        NUMBERS_OFFSET,
        (4 * numbers_from(strokes) % 0x1_0000_0000) as u32,
    );
}
