// Writing strokes of vertex numbers as a sheet.
#![tactic(auto)]

ghost use Rattle.std.specs.Prelude.{◌≡◌, ◌+◌, ◌*◌, ◌<◌, ◌≤◌, length, get_or, leb, ltb};
ghost use Rattle.std.proofs.lemmas.List.Edits.{sets};
ghost use Rattle.refusal.specs.Limits.{most_strokes, most_points};
ghost use Rattle.refusal.specs.Said.{value_said};
ghost use Rattle.byte_words.specs.Bytes.{bytes_all};
ghost use Rattle.sheet.specs.Sheets.{header_words, numbers_from, mode_word, header_of, words_of, size_of};
ghost use Rattle.sheet.specs.InnerKept.{kept_at, kept_from};
ghost use Rattle.sheet_write.specs.Call.{verdict_of, left, write_left};

use mesh::all_below;
use path::{end_of, rising};
use refusal::Refusal;
use sheet::{
    HEADER_WORDS, MODE, NUMBERS_OFFSET, POINTS, STARTS_OFFSET, STROKES, VERTICES, counts_good,
    mode_word, numbers_from, put_word,
};

// Whether stroke i has points.
fn has_points(starts: &[u32], i: usize, n: usize) -> bool
    requires { i < length starts.now }
    ensures { result ≡ ltb (get_or starts.now i 0) (get_or starts.now (i + 1) n) }
{
    (starts[i] as usize) < end_of(starts, i, n)
}

// 1 where stroke i has points.
fn present(starts: &[u32], i: usize, n: usize) -> usize
    requires { i < length starts.now }
    ensures value { result ≡ length (kept_at n starts.now i) }
    ensures upper_bound { result ≤ 1 }
{
    has_points(starts, i, n) as usize
}

// How many strokes have points.
fn kept(starts: &[u32], n: usize) -> usize
    ensures value { result ≡ length (kept_from n starts.now) }
    ensures upper_bound { result ≤ length starts.now }
{
    let mut k: usize = 0;
    for i in 0..starts.len() {
        k += present(starts, i, n);
    }
    k
}

// Stores the start of stroke i where the stroke has points, and answers the place after it.
fn put_start(starts: &[u32], i: usize, n: usize, out: &mut [u8], k: usize) -> usize
    requires { (i < length starts.now) × (k ≤ most_points) }
    ensures out_after { out.new ≡ sets out.old (k * 4) (bytes_all (kept_at n starts.now i)) }
    ensures value { (result ≡ k + length (kept_at n starts.now i)) × (result ≤ k + 1) }
{
    if !has_points(starts, i, n) {
        return k;
    }
    put_word(out, k, starts[i]);
    k + 1
}

// Stores the starts of all strokes that have points behind the header, and answers the place after them.
fn write_starts(starts: &[u32], n: usize, out: &mut [u8]) -> usize
    requires { length starts.now ≤ most_strokes }
    ensures out_after { out.new ≡ sets out.old (header_words * 4) (bytes_all (kept_from n starts.now)) }
    ensures value { (result ≡ numbers_from (length (kept_from n starts.now))) × (result ≤ numbers_from most_strokes) }
{
    let mut k: usize = HEADER_WORDS;
    for i in 0..starts.len() {
        k = put_start(starts, i, n, out, k);
    }
    k
}

// Stores the numbers from word k on.
fn write_numbers(numbers: &[u32], out: &mut [u8], k: usize)
    requires { (length numbers.now ≤ most_points) × (k ≤ numbers_from most_strokes) }
    ensures { out.new ≡ sets out.old (k * 4) (bytes_all numbers.now) }
{
    for (i, x) in numbers.iter().enumerate() {
        put_word(out, k + i, *x);
    }
}

// Stores the header: counts, and the offsets of starts and numbers. (sheet has its like for any count of strokes; this one stays, so that an
// edit can have it write another offset.)
fn write_header(out: &mut [u8], mode: u32, vertices: u32, strokes: u32, points: u32)
    requires { strokes ≤ most_strokes }
    ensures { out.new ≡ sets out.old 0 (bytes_all (header_of mode vertices strokes points)) }
{
    put_word(out, MODE, mode);
    put_word(out, VERTICES, vertices);
    put_word(out, STROKES, strokes);
    put_word(out, POINTS, points);
    put_word(out, STARTS_OFFSET, (4 * HEADER_WORDS) as u32);
    put_word(out, NUMBERS_OFFSET, (4 * numbers_from(strokes)) as u32);
}

// Whether the sheet of n numbers fits so many bytes.
fn fits(starts: &[u32], n: usize, room: usize) -> bool
    requires { (length starts.now ≤ most_strokes) × (n ≤ most_points) }
    ensures { result ≡ leb (size_of (length (kept_from n starts.now)) n) room }
{
    4 * (numbers_from(kept(starts, n) as u32) + n) <= room
}

// The tests before the call's work: the lowest refusal that applies. Nothing lent is touched.
fn write_verdict(
    mode: u32,
    vertices: u32,
    numbers: &[u32],
    starts: &[u32],
    room: usize,
) -> Result<(), Refusal>
    ensures { result ≡ verdict_of mode vertices numbers.now starts.now room }
{
    if !rising(starts, numbers.len()) {
        return Err(Refusal::Shape);
    }
    if !counts_good(vertices as usize, starts.len(), numbers.len()) {
        return Err(Refusal::Count);
    }
    if !all_below(numbers, vertices as usize) {
        return Err(Refusal::Vertex);
    }
    if mode_word(mode) == 0 {
        return Err(Refusal::Number);
    }
    if !fits(starts, numbers.len(), room) {
        return Err(Refusal::Room);
    }
    Ok(())
}

// Stores header, starts and numbers, and answers how many bytes they are.
fn write_all(mode: u32, vertices: u32, numbers: &[u32], starts: &[u32], out: &mut [u8]) -> usize
    requires { (length starts.now ≤ most_strokes) × (length numbers.now ≤ most_points) }
    ensures out_after { out.new ≡ sets out.old 0 (bytes_all (words_of (mode_word mode) vertices (kept_from (length numbers.now) starts.now) numbers.now)) }
    ensures value { result ≡ size_of (length (kept_from (length numbers.now) starts.now)) (length numbers.now) }
{
    let n = numbers.len();
    let strokes = kept(starts, n);
    write_header(out, mode_word(mode), vertices, strokes as u32, n as u32);
    let k = write_starts(starts, n, out);
    write_numbers(numbers, out, k);
    4 * (k + n)
}

// Writes strokes of vertex numbers as a sheet. An empty stroke is not written, and mode 0 is stored as what it stands for.
pub fn write_sheet(
    mode: u32,
    vertices: u32,
    numbers: &[u32],
    starts: &[u32],
    out: &mut [u8],
) -> Result<usize, Refusal>
    ensures { left (value_said result) out.new ≡ write_left mode vertices numbers.now starts.now out.old }
{
    write_verdict(mode, vertices, numbers, starts, out.len())?;
    Ok(write_all(mode, vertices, numbers, starts, out))
}
