// Links between the ends of strokes, and the walk along them, in words of scratch.
// With n strokes there are the values of their ends, then the order, the links, and what is to do. The words and n stay two parameters: a
// struct of both would hold a `&mut` and be made anew for each call, and one of the counts alone would leave as many clauses, that the words
// are as long as it says.
#![tactic(auto)]

ghost use Rattle.std.specs.Prelude.{◌≡◌, not, ◌≢◌, ℕ, ◌+◌, ◌-◌, ◌*◌, ◌/◌, ◌<◌, ◌≤◌, length, get_or};
ghost use Rattle.order.specs.Regions.{region, Into, Into2};
ghost use Rattle.path_splice_rule.specs.Splice.{stroke_of, is_free, opposite as opposite_of, onward as onward_of, pass as pass_of};
ghost use Rattle.path_splice_links.specs.Links.{link_word};
ghost use Rattle.path_splice_links.specs.Ends.{Lived};
ghost use Rattle.path_splice_links.specs.Layout.{order_at, links_at, todo_at, words_for, values_in, links_in, todo_in, LinksIn};
ghost use Rattle.path_splice_links.specs.Runs.{Reach, Pair, Mirrored, Ranked, Linked};
ghost use Rattle.path_splice_links.specs.Walk.{link_in, Within, RunIs, Drew, entry, begun_at, Walkable, Woven, threaded, thread_in};
ghost use Rattle.refusal.specs.Limits.{most_strokes};

use order::{clear, sort_words, word_at};
use path_splice_rule::Endpoint;
use refusal::MOST_STROKES;

// Where the order, the links and what is to do begin, and where that ends, in words a stroke; the values lie from 0.
pub const ORDER: usize = 2;

const LINKS: usize = 4;

pub const TODO: usize = 6;

pub const WORDS: usize = 7;

// The link that a word says: the end that an end is linked with, if it is linked.
fn link_in(word: u32) -> Option<Endpoint>
    ensures { link_word result ≡ word }
{
    if word == 0 {
        return None;
    }
    Some(Endpoint(word as usize - 1))
}

// The word that says a link.
fn word_of(l: Option<Endpoint>) -> u32
    requires { link_word l ≤ 2 * most_strokes }
    ensures { result ≡ link_word l }
{
    match l {
        Some(f) => (f.0 + 1) as u32,
        None => 0,
    }
}

// Writes the ends of the strokes that are there to the order, and answers how many there are.
fn live_ends(s: &mut [u32], n: usize) -> usize
    requires { (words_for n ≤ length s.old) × (n ≤ most_strokes) }
    ensures { Into s.old s.new (order_at n) (2 * n) (λ a. Lived (todo_in s.old n) (region s.old (order_at n) (2 * n)) a result) }
{
    let mut k: usize = 0;
    for e in 0..2 * n {
        let i = Endpoint(e).path_id();
        if s[TODO * n + i] == 0 {
            continue;
        }
        s[ORDER * n + k] = e as u32;
        k += 1;
    }
    k
}

// Where the run of place p ends.
fn run_end(values: &[u32], s: &[u32], p: usize) -> usize
    requires { p < length s.now }
    ensures { Reach values.now s.now p result }
{
    let v = word_at(values, s[p]);
    for q in p + 1..s.len() {
        let w = word_at(values, s[q]);
        if w != v {
            return q;
        }
    }
    s.len()
}

// Where the run of place p in the order ends.
fn reach(s: &[u32], n: usize, c: usize, p: usize) -> usize
    requires { (words_for n ≤ length s.now) × (c ≤ 2 * n) × (p < c) × (n ≤ most_strokes) }
    ensures { Reach (values_in s.now n) (region s.now (order_at n) c) p result }
{
    let m = ORDER * n;
    let h = m + c;
    run_end(&s[..m], &s[m..h], p)
}

// The link of e, whose mirror is f: none where both are of one stroke.
fn mirror_link(e: Endpoint, f: Endpoint) -> Option<Endpoint>
    ensures pair { Pair e.0 f.0 (link_word result) }
    ensures result_bound { link_word result ≤ f.0 + 1 }
{
    if e.path_id() == f.path_id() {
        return None;
    }
    Some(f)
}

// Links the ends of the run from p to q.
fn mirror_run(s: &mut [u32], n: usize, c: usize, p: usize, q: usize)
    requires n_in_bounds { (words_for n ≤ length s.old) × (n ≤ most_strokes) × (c ≤ 2 * n) × (p < q) × (q ≤ c) }
    requires by_index { (x : ℕ) → x < c → get_or (region s.old (order_at n) c) x 0 < 2 * n }
    requires by_index_2 { (x y : ℕ) → p ≤ x → x < y → y < q → get_or (region s.old (order_at n) c) x 0 ≢ get_or (region s.old (order_at n) c) y 0 }
    ensures { Into s.old s.new (links_at n) (2 * n) (λ ls. Mirrored (region s.old (order_at n) c) (links_in s.old n) ls p q q) }
{
    for x in p..q {
        let e = s[ORDER * n + x];
        let f = s[ORDER * n + (p + q - 1 - x)];
        let l = mirror_link(Endpoint(e as usize), Endpoint(f as usize));
        let i = LINKS * n + e as usize;
        s[i] = word_of(l);
    }
}

// Links the ends of every run.
fn link_runs(s: &mut [u32], n: usize, c: usize)
    requires n_in_bounds { (words_for n ≤ length s.old) × (n ≤ most_strokes) × (c ≤ 2 * n) }
    requires ranked { Ranked (values_in s.old n) (region s.old (order_at n) c) (2 * n) }
    ensures { Into s.old s.new (links_at n) (2 * n) (λ ls. Linked (values_in s.old n) (region s.old (order_at n) c) (links_in s.old n) ls c) }
{
    // a `while`, as it steps from run to run
    let mut p: usize = 0;
    while p < c {
        let q = reach(s, n, c, p);
        mirror_run(s, n, c, p, q);
        p = q;
    }
}

// Links all ends that can be linked.
fn link_ends(s: &mut [u32], n: usize)
    requires { (words_for n ≤ length s.old) × (n ≤ most_strokes) }
    ensures { LinksIn s.old s.new n }
{
    let c = live_ends(s, n);
    let m = ORDER * n;
    let l = LINKS * n;
    let h = TODO * n;
    sort_words(s, 0, m, m, l, c);
    clear(&mut s[l..h]);
    link_runs(s, n, c);
}

// Where the walk goes on to from the stroke entered at e: the end linked with its other end, unless that stroke is drawn.
fn onward(links: &[u32], todo: &[u32], e: Endpoint) -> Option<Endpoint>
    requires links_len { length links.now ≡ 2 * length todo.now }
    requires links_len_bound { length links.now ≤ 2 * most_strokes }
    requires e_in_bounds { e.0 < length links.now }
    requires within { Within links.now }
    ensures { link_word result ≡ onward_of todo.now (link_in links.now (opposite_of e.0)) }
{
    let o = e.opposite();
    let at = o.0;
    let f = link_in(links[at])?;
    let i = f.path_id();
    if todo[i] == 0 {
        return None;
    }
    Some(f)
}

// The same, in the strokes' words.
fn go_on(s: &[u32], n: usize, e: Endpoint) -> Option<Endpoint>
    requires n_in_bounds { (words_for n ≤ length s.now) × (n ≤ most_strokes) × (e.0 < 2 * n) }
    requires within { Within (links_in s.now n) }
    ensures { link_word result ≡ onward_of (todo_in s.now n) (link_in (links_in s.now n) (opposite_of e.0)) }
{
    let l = LINKS * n;
    let t = TODO * n;
    let h = WORDS * n;
    onward(&s[l..t], &s[t..h], e)
}

// Walks one chain from the end start, and writes the ends at which it enters, the first one marked.
fn run(s: &mut [u32], n: usize, at: usize, start: Endpoint) -> usize
    requires walkable { Walkable s.old n at }
    requires start_bound { (start.0 < 2 * n) × (get_or (todo_in s.old n) (stroke_of start.0) 0 ≢ 0) }
    ensures { Into2 s.old s.new (todo_at n) n (order_at n) n
        (λ t o. RunIs (links_in s.old n) (todo_in s.old n) (region s.old (order_at n) n) at start.0 t o result) }
{
    let mut e = start;
    let mut k = at;
    let mut f: usize = 1;
    // a `loop`, as it goes from link to link
    loop {
        let i = e.path_id();
        s[TODO * n + i] = 0;
        s[ORDER * n + k] = (e.0 + e.0 + f) as u32;
        k += 1;
        f = 0;
        match go_on(s, n, e) {
            Some(g) => e = g,
            None => return k,
        }
    }
}

// Whether end e is linked.
fn is_connected(s: &[u32], n: usize, e: Endpoint) -> bool
    requires { (words_for n ≤ length s.now) × (n ≤ most_strokes) × (e.0 < 2 * n) }
    ensures { result ≡ not (is_free (link_in (links_in s.now n) e.0)) }
{
    let at = e.0;
    link_in(s[LINKS * n + at]).is_some()
}

// Where stroke i is entered: a free end, the first before the last, or none; or, of rings, the last.
fn enter(s: &[u32], n: usize, i: usize, rings: bool) -> Option<Endpoint>
    requires { (words_for n ≤ length s.now) × (n ≤ most_strokes) × (i < n) }
    ensures { link_word result ≡ entry (link_in (links_in s.now n)) rings i }
{
    let last = Endpoint::new(i as u32, true);
    if rings {
        return Some(last);
    }
    let first = Endpoint::new(i as u32, false);
    if !is_connected(s, n, first) {
        return Some(first);
    }
    if !is_connected(s, n, last) {
        return Some(last);
    }
    None
}

// Walks the chain that begins at stroke i, if it is still to do and one begins there.
fn visit(s: &mut [u32], n: usize, at: usize, i: usize, rings: bool) -> usize
    requires walkable { Walkable s.old n at }
    requires i_lt_n { i < n }
    ensures { Into2 s.old s.new (todo_at n) n (order_at n) n
        (λ t o. Drew (begun_at (links_in s.old n) n (todo_in s.old n) rings i) (region s.old (order_at n) n) at t o result) }
{
    if s[TODO * n + i] == 0 {
        return at;
    }
    match enter(s, n, i, rings) {
        Some(e) => run(s, n, at, e),
        None => at,
    }
}

// Walks the chains that begin at strokes in their order.
fn walk_pass(s: &mut [u32], n: usize, at: usize, rings: bool) -> usize
    requires { Walkable s.old n at }
    ensures { Into2 s.old s.new (todo_at n) n (order_at n) n
        (λ t o. Drew (pass_of (entry (link_in (links_in s.old n)) rings) (link_in (links_in s.old n)) n n 0 (todo_in s.old n)) (region s.old (order_at n) n) at t o result) }
{
    let mut k = at;
    for i in 0..n {
        k = visit(s, n, k, i, rings);
    }
    k
}

// Links the n strokes, and walks all chains: first those with a free end, then the rings.
fn link_and_walk(s: &mut [u32], n: usize) -> usize
    requires { (words_for n ≤ length s.old) × (n ≤ most_strokes) }
    ensures { Woven s.old s.new n result }
{
    link_ends(s, n);
    let k = walk_pass(s, n, 0, false);
    walk_pass(s, n, k, true)
}

// Threads n strokes whose ends' values and what is to do lie in s: leaves in its place the order in which their chains enter them,
// an end times two for each, plus 1 for a chain's first, and answers how many. The words after it up to the last of theirs are zero.
pub fn thread(s: &mut [u32], n: usize) -> usize
    ensures s_after { threaded result s.new ≡ thread_in s.old n }
    ensures upper_bound { result ≤ n }
{
    if MOST_STROKES < n {
        return 0;
    }
    if s.len() < WORDS * n {
        return 0;
    }
    let c = link_and_walk(s, n);
    let a = ORDER * n + c;
    let e = WORDS * n;
    clear(&mut s[a..e]);
    c
}
