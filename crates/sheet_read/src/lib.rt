// Reading a sheet: whether bytes are one, and its strokes.
#![tactic(auto)]

ghost use Rattle.std.specs.Prelude.{◌≡◌, ◌-◌, ◌≤◌};
ghost use Rattle.std.proofs.lemmas.List.Edits.{sets};
ghost use Rattle.refusal.specs.Limits.{most_strokes, most_points};
ghost use Rattle.path.specs.Strokes.{gather};
ghost use Rattle.mesh.specs.Meshes.{all_below};
ghost use Rattle.sheet.specs.Sheets.{header_words, word_at, places_good, strict_from, table_good, header_good, is_sheet};
ghost use Rattle.sheet_read.specs.Call.{room_for, verdict_of, said, left, read_left};

use path::put;
use refusal::Refusal;
use sheet::{
    HEADER_WORDS, MODE, NUMBERS_OFFSET, POINTS, STARTS_OFFSET, STROKES, VERTICES, counts_good,
    mode_good, numbers_from, word_at,
};

// What was read of a sheet: its mode and vertices, and how many points and starts were written.
#[derive(Clone, Copy, Debug, PartialEq, Eq)]
pub struct SheetRead {
    pub mode: u32,
    pub vertices: u32,
    pub points: usize,
    pub starts: usize,
}

// Whether starts and numbers begin where they must, and the bytes end with them.
fn places_good(bytes: &[u8], strokes: u32, points: u32) -> bool
    ensures { result ≡ places_good bytes.now strokes points }
{
    let k = numbers_from(strokes);
    if word_at(bytes, STARTS_OFFSET) as usize != 4 * HEADER_WORDS {
        return false;
    }
    if word_at(bytes, NUMBERS_OFFSET) as usize != 4 * k {
        return false;
    }
    bytes.len() == 4 * (k + points as usize)
}

// Whether the header is that of a sheet of these bytes.
fn header_good(bytes: &[u8]) -> bool
    ensures { result ≡ header_good bytes.now }
{
    let strokes = word_at(bytes, STROKES);
    let points = word_at(bytes, POINTS);
    if !mode_good(word_at(bytes, MODE)) {
        return false;
    }
    if !counts_good(
        word_at(bytes, VERTICES) as usize,
        strokes as usize,
        points as usize,
    ) {
        return false;
    }
    places_good(bytes, strokes, points)
}

// Whether the words from a up to e rise strictly above s and stay below n.
fn strict_from(bytes: &[u8], a: usize, e: usize, s: u32, n: u32) -> bool
    ensures { result ≡ strict_from n s (gather (word_at bytes.now) a (e - a)) }
{
    let mut prev = s;
    for i in a..e {
        let t = word_at(bytes, i);
        if t <= prev {
            return false;
        }
        if n <= t {
            return false;
        }
        prev = t;
    }
    true
}

// Whether the starts are a table of n points: from 0 on, strictly rising, below n; none exactly if there is no point.
fn table_good(bytes: &[u8], strokes: usize, n: u32) -> bool
    requires { strokes ≤ most_strokes }
    ensures { result ≡ table_good n (gather (word_at bytes.now) header_words strokes) }
{
    if strokes == 0 {
        return n == 0;
    }
    let s = word_at(bytes, HEADER_WORDS);
    if s != 0 {
        return false;
    }
    if n <= s {
        return false;
    }
    strict_from(bytes, HEADER_WORDS + 1, HEADER_WORDS + strokes, s, n)
}

// Whether the words from a up to e are below n.
fn words_below(bytes: &[u8], a: usize, e: usize, n: u32) -> bool
    ensures { result ≡ all_below n (gather (word_at bytes.now) a (e - a)) }
{
    for i in a..e {
        if n <= word_at(bytes, i) {
            return false;
        }
    }
    true
}

// Whether the bytes are a sheet.
pub fn is_sheet(bytes: &[u8]) -> bool
    ensures { result ≡ is_sheet bytes.now }
{
    if !header_good(bytes) {
        return false;
    }
    let strokes = word_at(bytes, STROKES);
    let n = word_at(bytes, POINTS);
    if !table_good(bytes, strokes as usize, n) {
        return false;
    }
    let a = numbers_from(strokes);
    words_below(bytes, a, a + n as usize, word_at(bytes, VERTICES))
}

// Whether there is room for the strokes and points in the header.
fn room_for(bytes: &[u8], room: usize, start_room: usize) -> bool
    ensures { result ≡ room_for bytes.now room start_room }
{
    if room < word_at(bytes, POINTS) as usize {
        return false;
    }
    word_at(bytes, STROKES) as usize <= start_room
}

// The tests before the call's work: bytes that are no sheet come before missing room. Nothing lent is touched.
fn read_verdict(bytes: &[u8], room: usize, start_room: usize) -> Result<(), Refusal>
    ensures { result ≡ verdict_of bytes.now room start_room }
{
    if !is_sheet(bytes) {
        return Err(Refusal::Sheet);
    }
    if !room_for(bytes, room, start_room) {
        return Err(Refusal::Room);
    }
    Ok(())
}

// Stores the n words from word a on.
fn copy_words(bytes: &[u8], a: usize, n: usize, out: &mut [u32])
    requires { (a ≤ most_points) × (n ≤ most_points) }
    ensures { out.new ≡ sets out.old 0 (gather (word_at bytes.now) a n) }
{
    for i in 0..n {
        put(out, i, word_at(bytes, a + i));
    }
}

// Reads a sheet into lent lists: its vertex numbers and its starts.
pub fn read_sheet(
    bytes: &[u8],
    out_numbers: &mut [u32],
    out_starts: &mut [u32],
) -> Result<SheetRead, Refusal>
    ensures { left (said result) out_numbers.new out_starts.new
        ≡ read_left bytes.now out_numbers.old out_starts.old }
{
    read_verdict(bytes, out_numbers.len(), out_starts.len())?;
    let strokes = word_at(bytes, STROKES);
    let points = word_at(bytes, POINTS) as usize;
    copy_words(bytes, HEADER_WORDS, strokes as usize, out_starts);
    copy_words(bytes, numbers_from(strokes), points, out_numbers);
    Ok(SheetRead {
        mode: word_at(bytes, MODE),
        vertices: word_at(bytes, VERTICES),
        points: points,
        starts: strokes as usize,
    })
}
