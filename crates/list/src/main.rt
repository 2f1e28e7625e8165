// Lists the sheet on standard input: a line of mode, vertices, strokes and points, then a line a stroke.
#![tactic(auto)]

ghost use Rattle.std.specs.Prelude.{◌≤◌, length, IfOk};

use sheet_list::{MOST_BYTES, MOST_TEXT};
use std::io;
use std::io::Read;

// Writes the text of what was read.
fn show(rt: &impl Print, bytes: &[u8]) -> io::Result<()> {
    let mut text = [0u8; MOST_TEXT];
    let k = sheet_list::list(bytes, &mut text[..]);
    rt.write_all(&text[..k])
}

// Reads until there is no room or no more to read, and answers how many bytes came. (A `while`: a read brings as many bytes as it brings.)
fn read_full(input: &mut impl Read, room: &mut [u8]) -> io::Result<usize>
    ensures { IfOk result (λ n. n ≤ length room.new) }
{
    let mut n = 0;
    while n < room.len() {
        let more = input.read(&mut room[n..])?;
        if more == 0 {
            break;
        }
        n += more;
    }
    Ok(n)
}

// Reads one byte more than is listed, so that a longer input is told.
fn main(rt: HostRuntime) -> io::Result<()> {
    let mut input = [0u8; MOST_BYTES + 1];
    let n = read_full(&mut rt.stdin(), &mut input)?;
    show(&rt, &input[..n])
}
