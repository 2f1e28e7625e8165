// Rows that a closure works out. A row of function k has a number up to 100 and its k-fold, and status 0.
//
// Which rows differ is known by hand: one of another product, of a number over 100, of another status, with a word too many, with a
// byte that belongs to no row. Function 4 has no name, so its row counts under the first. What is no whole row at the end counts nowhere.
// The eleven rows come 700 times, more than one read brings, so that one of them is cut by the end of a read.
#![tactic(auto)]

use replay_rows::{Page, replay};
use std::io;

// The functions by their numbers; 0 is that of no function.
const NAMES: [&str; 4] = ["none", "once", "twice", "three times"];

fn main(rt: HostRuntime) -> io::Result<()> {
    let most = 100;
    replay(&rt, &mut rt.stdin(), &NAMES, |page: &Page| {
        let x = page.word(2);
        x <= most && page.word(3) == x.wrapping_mul(page.word(0)) && page.ends(4, 0)
    })
}
