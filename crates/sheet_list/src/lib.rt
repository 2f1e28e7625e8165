// The text of a sheet: a line of mode, vertices, strokes and points, then a line a stroke.
#![tactic(auto)]

ghost use Rattle.std.specs.Prelude.{◌≡◌, true, ◌+◌, ◌-◌, ◌*◌, ◌≤◌, get_or};
ghost use Rattle.std.proofs.lemmas.List.Edits.{sets};
ghost use Rattle.path.specs.Strokes.{gather, strokes_of};
ghost use Rattle.path.specs.Courses.{course, advanced};
ghost use Rattle.refusal.specs.Limits.{most_strokes};
ghost use Rattle.sheet.specs.Sheets.{header_words, word_at, is_sheet};
ghost use Rattle.sheet_list.specs.Listing.{top_from, digits_from, decimal, spaced, line_of, lines_of, listed, refused_text, most_text, text_of};
ghost use Rattle.sheet_list.specs.InnerLines.{number_in, numbers_at};

use byte_words::put_byte;
use refusal::{Refusal, number};
use sheet::{HEADER_WORDS, MODE, POINTS, STARTS_OFFSET, STROKES, numbers_from, put_word, word_at};
use sheet_read::is_sheet;

// The most bytes that are listed, and the most that their text has: three for each.
pub const MOST_BYTES: usize = 65536;

pub const MOST_TEXT: usize = 3 * MOST_BYTES;

// The greatest power of ten that is not above x; 1 for 0.
fn top(x: u32) -> u32
    ensures { result ≡ top_from 9 1 x }
{
    let mut p: u32 = 1;
    for _ in 0..9u32 {
        if x / p < 10 {
            return p;
        }
        p *= 10;
    }
    p
}

// Stores the digits of x from that of the power p down to the last, and answers the place after them. (No `write!`: the promise is every
// byte, in room that is lent.)
fn write_digits(x: u32, p: u32, out: &mut [u8], k: usize) -> usize
    requires { k ≤ 0x4000_0000_0000_0000 }
    ensures { (course out.new result ≡ advanced sets (course out.old k) (digits_from 10 p x)) × (result ≤ k + 10) }
{
    let mut q = p;
    let mut at = k;
    for _ in 0..10u32 {
        if q == 0 {
            return at;
        }
        put_byte(out, at, (48 + x / q % 10) as u8);
        q /= 10;
        at += 1;
    }
    at
}

// Stores x in decimal.
fn write_number(x: u32, out: &mut [u8], k: usize) -> usize
    requires { k ≤ 0x4000_0000_0000_0000 }
    ensures { (course out.new result ≡ advanced sets (course out.old k) (decimal x)) × (result ≤ k + 10) }
{
    write_digits(x, top(x), out, k)
}

// Stores the words from a up to e, a space before each.
fn write_more(bytes: &[u8], a: usize, e: usize, out: &mut [u8], k: usize) -> usize
    requires { (a ≤ e) × (e ≤ 0x2_0000_0000) × (k ≤ 0x2000_0000_0000_0000) }
    ensures { (course out.new result ≡ advanced sets (course out.old k) (spaced (gather (word_at bytes.now) a (e - a)))) × (result ≤ k + 11 * (e - a)) }
{
    let mut at = k;
    for i in a..e {
        put_byte(out, at, 32);
        at = write_number(word_at(bytes, i), out, at + 1);
    }
    at
}

// Stores the words from a up to e as a line.
fn write_line(bytes: &[u8], a: usize, e: usize, out: &mut [u8], k: usize) -> usize
    requires { (e ≤ 0x2_0000_0000) × (k ≤ 0x1000_0000_0000_0000) }
    ensures { (course out.new result ≡ advanced sets (course out.old k) (line_of (gather (word_at bytes.now) a (e - a)))) × (result ≤ k + 0x17_0000_0000) }
{
    if e <= a {
        put_byte(out, k, 10);
        return k + 1;
    }
    let i = write_number(word_at(bytes, a), out, k);
    let j = write_more(bytes, a + 1, e, out, i);
    put_byte(out, j, 10);
    j + 1
}

// The start of stroke i, of so many strokes and points; past the last the point count.
fn start_at(bytes: &[u8], i: usize, strokes: usize, points: u32) -> usize
    requires { strokes ≤ most_strokes }
    ensures { (result ≡ get_or (gather (word_at bytes.now) header_words strokes) i points) × (result ≤ 0xffff_ffff) }
{
    if i < strokes {
        return word_at(bytes, HEADER_WORDS + i) as usize;
    }
    points as usize
}

// Stores the line of stroke i.
fn write_stroke(
    bytes: &[u8],
    i: usize,
    strokes: usize,
    points: u32,
    out: &mut [u8],
    k: usize,
) -> usize
    requires { (i ≤ most_strokes) × (strokes ≤ most_strokes) × (k ≤ 0x1000_0000_0000_0000) }
    ensures { (course out.new result ≡ advanced sets (course out.old k) (line_of (numbers_at bytes.now strokes
        (get_or (gather (word_at bytes.now) header_words strokes) i points) (get_or (gather (word_at bytes.now) header_words strokes) (i + 1) points)))) × (result ≤ k + 0x17_0000_0000) }
{
    let a = start_at(bytes, i, strokes, points);
    let e = start_at(bytes, i + 1, strokes, points);
    let b = numbers_from(strokes as u32);
    write_line(bytes, b + a, b + e, out, k)
}

// Stores the lines of all strokes.
fn write_strokes(bytes: &[u8], strokes: usize, points: u32, out: &mut [u8], k: usize) -> usize
    requires { (strokes ≤ most_strokes) × (k ≤ 0x4000_0000_0000) }
    ensures { course out.new result ≡ advanced sets (course out.old k) (lines_of (strokes_of (number_in bytes.now strokes) points (gather (word_at bytes.now) header_words strokes))) }
{
    let mut at = k;
    for i in 0..strokes {
        at = write_stroke(bytes, i, strokes, points, out, at);
    }
    at
}

// Stores `refused ` and the number; the eight bytes are two words.
fn write_refused(n: u32, out: &mut [u8]) -> usize
    ensures { course out.new result ≡ advanced sets (course out.old 0) (refused_text n) }
{
    put_word(out, 0, 0x7566_6572);
    put_word(out, 1, 0x2064_6573);
    let k = write_number(n, out, 8);
    put_byte(out, k, 10);
    k + 1
}

// Stores the text of a sheet.
fn write_listed(bytes: &[u8], out: &mut [u8]) -> usize
    requires { is_sheet bytes.now ≡ true }
    ensures { course out.new result ≡ advanced sets (course out.old 0) (listed bytes.now) }
{
    let k = write_line(bytes, MODE, STARTS_OFFSET, out, 0);
    let strokes = word_at(bytes, STROKES) as usize;
    write_strokes(bytes, strokes, word_at(bytes, POINTS), out, k)
}

// Stores the text that lists the bytes, as far as there is room, and answers how long it is.
pub fn list(bytes: &[u8], out: &mut [u8]) -> usize
    ensures result_after { course out.new result ≡ advanced sets (course out.old 0) (text_of bytes.now) }
    ensures upper_bound { result ≤ most_text }
{
    if MOST_BYTES < bytes.len() {
        return write_refused(number(Refusal::Count), out);
    }
    if !is_sheet(bytes) {
        return write_refused(number(Refusal::Sheet), out);
    }
    write_listed(bytes, out)
}
