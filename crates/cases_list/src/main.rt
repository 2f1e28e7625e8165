// The listing's cases: a line each that says what the bytes are, and then what the listing says of them.
#![tactic(auto)]

use byte_words::put_byte;
use sheet::put_word;
use sheet_list::{MOST_BYTES, MOST_TEXT};
use std::io;

// What the listing says of bytes.
fn tell(rt: &impl Print, what: &str, bytes: &[u8]) -> io::Result<()> {
    let mut out = [0u8; MOST_TEXT];
    print!(rt; "{what}")?;
    let k = sheet_list::list(bytes, &mut out);
    rt.write_all(&out[..k])
}

// The same of the first n bytes, where there are so many.
fn tell_first(rt: &impl Print, what: &str, bytes: &[u8], n: usize) -> io::Result<()> {
    if n <= bytes.len() {
        tell(rt, what, &bytes[..n])?;
    }
    Ok(())
}

// Stores words from the first byte on.
fn put_words(out: &mut [u8], words: &[u32]) {
    for (i, word) in words.iter().enumerate() {
        put_word(out, i, *word);
    }
}

// The sheet of [1,0,2,1] with 3 vertices, with one byte at another value.
fn changed(rt: &impl Print, what: &str, at: usize, to: u8) -> io::Result<()> {
    let words = [1u32, 3, 1, 4, 24, 28, 0, 1, 0, 2, 1];
    let mut sheet = [0u8; 44];
    put_words(&mut sheet, &words);
    put_byte(&mut sheet, at, to);
    tell(rt, what, &sheet)
}

// The same sheet without its last byte, and with one more.
fn cut_and_longer(rt: &impl Print) -> io::Result<()> {
    let words = [1u32, 3, 1, 4, 24, 28, 0, 1, 0, 2, 1];
    let mut sheet = [0u8; 45];
    put_words(&mut sheet, &words);
    tell_first(rt, "its last byte missing:\n", &sheet, 43)?;
    tell(rt, "a byte more:\n", &sheet)
}

// The sheet of [1] [0] [2,1] with 3 vertices, with one byte at another value.
fn three(rt: &impl Print, what: &str, at: usize, to: u8) -> io::Result<()> {
    let words = [1u32, 3, 3, 4, 24, 36, 0, 1, 2, 1, 0, 2, 1];
    let mut sheet = [0u8; 52];
    put_words(&mut sheet, &words);
    put_byte(&mut sheet, at, to);
    tell(rt, what, &sheet)
}

// A sheet with no stroke, and parts of it.
fn none_of_them(rt: &impl Print) -> io::Result<()> {
    let words = [3u32, 0, 0, 0, 24, 24];
    let mut sheet = [0u8; 24];
    put_words(&mut sheet, &words);
    tell(rt, "an empty sheet:\n", &sheet)?;
    tell_first(rt, "no bytes:\n", &sheet, 0)?;
    tell_first(rt, "a header cut short:\n", &sheet, 23)
}

// Bytes that have points or strokes alone.
fn points_or_strokes(rt: &impl Print) -> io::Result<()> {
    let points = [1u32, 3, 0, 1, 24, 24, 0];
    let strokes = [1u32, 3, 1, 0, 24, 28, 0];
    let mut sheet = [0u8; 28];
    put_words(&mut sheet, &points);
    tell(rt, "a point but no stroke:\n", &sheet)?;
    put_words(&mut sheet, &strokes);
    tell(rt, "a stroke but no point:\n", &sheet)
}

// The header of a stroke of 16,377 points, all of vertex 0: with them a sheet of 65,536 bytes.
fn long_header(out: &mut [u8]) {
    let words = [2u32, 1, 1, 16377, 24, 28];
    put_words(out, &words);
}

// The longest sheet that is listed: how long its text is, and the text's first line.
fn longest(rt: &impl Print) -> io::Result<()> {
    let mut sheet = [0u8; MOST_BYTES];
    let mut out = [0u8; MOST_TEXT];
    long_header(&mut sheet);
    let k = sheet_list::list(&sheet, &mut out);
    println!(rt; "65,536 bytes, listed in {k}:")?;
    rt.write_all(&out[..12])
}

// As many bytes that are no sheet, and one byte more than is listed.
fn too_long(rt: &impl Print) -> io::Result<()> {
    let mut bytes = [0u8; MOST_BYTES + 1];
    tell(
        rt,
        "65,536 bytes that are no sheet:\n",
        &bytes[..MOST_BYTES],
    )?;
    long_header(&mut bytes);
    tell(rt, "65,537 bytes:\n", &bytes)
}

fn main(rt: HostRuntime) -> io::Result<()> {
    changed(&rt, "[1,0,2,1] with 3 vertices:\n", 0, 1)?;
    changed(&rt, "in mode 3:\n", 0, 3)?;
    changed(&rt, "with 259 vertices:\n", 5, 1)?;
    none_of_them(&rt)?;
    points_or_strokes(&rt)?;
    changed(&rt, "mode 0:\n", 0, 0)?;
    changed(&rt, "mode 4:\n", 0, 4)?;
    changed(&rt, "262,147 vertices:\n", 6, 4)?;
    changed(&rt, "2 vertices:\n", 4, 2)?;
    changed(&rt, "2 strokes in the header:\n", 8, 2)?;
    changed(&rt, "3 points in the header:\n", 12, 3)?;
    changed(&rt, "5 points in the header:\n", 12, 5)?;
    changed(&rt, "starts from byte 28:\n", 16, 28)?;
    changed(&rt, "points from byte 24:\n", 20, 24)?;
    changed(&rt, "the first start 1:\n", 24, 1)?;
    changed(&rt, "vertex 3:\n", 28, 3)?;
    cut_and_longer(&rt)?;
    three(&rt, "[1] [0] [2,1] with 3 vertices:\n", 0, 1)?;
    three(&rt, "the second start 0, as the first:\n", 28, 0)?;
    three(&rt, "the second start 3, above the third:\n", 28, 3)?;
    three(&rt, "the third start 4, as many as points:\n", 32, 4)?;
    longest(&rt)?;
    too_long(&rt)
}
