// The edges of a mesh as words of scratch: its sides by their pairs, and which edges of two faces are flipped. The words and the number of
// sides stay two parameters: a struct of both would hold a `&mut` and be made anew for each call, and one of the counts alone would leave as
// many clauses, that the words are as long as it says.
#![tactic(auto)]

ghost use Rattle.std.specs.Prelude.{◌≡◌, ◌+◌, ◌-◌, ◌*◌, ◌<◌, ◌≤◌, length, get_or, replicate};
ghost use Rattle.refusal.specs.Limits.{most_faces};
ghost use Rattle.order.specs.Regions.{region, put};
ghost use Rattle.mesh_edges.specs.Edges.{next_corner, low_of, high_of, groups_of};
ghost use Rattle.mesh_edges.specs.InnerWords.{edges_in, end_in, pair_in};
ghost use Rattle.mesh_edges.specs.InnerSteps.{sides_to, by_pairs, plain_words, Below, mate_mark, marks, mate_on, flag_at, flag_pair, flag_all};

use order::{clear, sort_words};
use refusal::MOST_FACES;

// The word at place i, 0 past the end. It is no one function with order's `word_at`, whose place is a word: `n + i` may not fit one.
fn word_in(s: &[u32], i: usize) -> u64
    ensures { (result ≡ get_or s.now i 0) × (result < 4294967296) }
{
    if i < s.len() {
        return s[i] as u64;
    }
    0
}

// The pair of side k of n, the smaller vertex first, as one number.
fn pair_at(s: &[u32], n: usize, k: u32) -> u64
    requires { 5 * n ≤ length s.now }
    ensures { result ≡ pair_in s.now n k }
{
    let i = k as usize;
    let low = word_in(s, i);
    let high = word_in(s, n + i);
    low * 4294967296 + high
}

// Where the sides with the pair of the one at place p end.
fn group_end(s: &[u32], n: usize, p: usize) -> usize
    requires { (5 * n ≤ length s.now) × (p < n) }
    ensures { result ≡ end_in s.now n p }
{
    let v = pair_at(s, n, s[2 * n + p]);
    for q in p + 1..n {
        let w = pair_at(s, n, s[2 * n + q]);
        if v != w {
            return q;
        }
    }
    n
}

// Where the edge of the side at place p ends; p itself where no such side is.
pub fn edge_end(s: &[u32], n: usize, p: usize) -> usize
    ensures { result ≡ end_in s.now n p }
{
    if n <= p {
        return p;
    }
    if s.len() / 5 < n {
        return p;
    }
    group_end(s, n, p)
}

// The corner after k in its face.
fn next_corner(k: usize) -> usize
    requires { k < 3 * most_faces }
    ensures { result ≡ next_corner k }
{
    if k % 3 == 2 {
        return k - 2;
    }
    k + 1
}

// The smaller vertex of side k.
fn low_of(indices: &[u32], k: usize) -> u32
    requires { k < 3 * most_faces }
    ensures { result ≡ low_of indices.now k }
{
    let a = word_in(indices, k);
    let b = word_in(indices, next_corner(k));
    if a < b {
        return a as u32;
    }
    b as u32
}

// The larger vertex of side k.
fn high_of(indices: &[u32], k: usize) -> u32
    requires { k < 3 * most_faces }
    ensures { result ≡ high_of indices.now k }
{
    let a = word_in(indices, k);
    let b = word_in(indices, next_corner(k));
    if a < b {
        return b as u32;
    }
    a as u32
}

// Writes the vertices of each of n sides, the smaller to the first n words and the larger to the next, and its number after them.
fn fill_sides(indices: &[u32], s: &mut [u32], n: usize)
    requires { (5 * n ≤ length s.old) × (n ≤ 3 * most_faces) }
    ensures { s.new ≡ sides_to s.old indices.now n n }
{
    for k in 0..n {
        s[k] = low_of(indices, k);
        s[n + k] = high_of(indices, k);
        s[2 * n + k] = k as u32;
    }
}

// Orders the sides by their larger vertex and then by the smaller: by their pairs, since the sort keeps what is equal as it came.
fn sort_sides(s: &mut [u32], n: usize)
    requires { (5 * n ≤ length s.old) × (n ≤ 3 * most_faces) }
    ensures { s.new ≡ by_pairs s.old n }
{
    let e = 2 * n;
    let room = 3 * n;
    sort_words(s, n, e, e, room, n);
    sort_words(s, 0, n, e, room, n);
}

// Writes the sides by their pairs, and no edge flipped.
fn sides(indices: &[u32], s: &mut [u32], n: usize)
    requires { (5 * n ≤ length s.old) × (n ≤ 3 * most_faces) × (n ≡ length indices.now) }
    ensures { s.new ≡ put s.old 0 (plain_words indices.now) }
{
    fill_sides(indices, s, n);
    sort_sides(s, n);
    let a = 4 * n;
    let e = 5 * n;
    clear(&mut s[a..e]);
}

// Where the sides from place p up to q are two, writes the second, plus 1, as the mate of the first.
fn mate(s: &mut [u32], n: usize, p: usize, q: usize)
    requires n_in_bounds { (5 * n ≤ length s.old) × (n ≤ 3 * most_faces) × (p < q) × (q ≤ n) }
    requires below { Below s.old n }
    ensures { s.new ≡ put s.old (3 * n) (mate_mark (region (region s.old (2 * n) n) p (q - p)) (region s.old (3 * n) n)) }
{
    if q != p + 2 {
        return;
    }
    let i = 3 * n + s[2 * n + p] as usize;
    s[i] = s[2 * n + p + 1] + 1;
}

// Writes the mates, edge after edge.
fn write_mates(s: &mut [u32], n: usize)
    requires n_in_bounds { (5 * n ≤ length s.old) × (n ≤ 3 * most_faces) }
    requires below { Below s.old n }
    ensures { s.new ≡ put s.old (3 * n) (marks (groups_of (pair_in s.old n) (region s.old (2 * n) n)) (region s.old (3 * n) n)) }
{
    // a `while`, as it steps from edge to edge
    let mut p: usize = 0;
    while p < n {
        let q = edge_end(s, n, p);
        mate(s, n, p, q);
        p = q;
    }
}

// Whether side k of n has a mate of face y.
fn mate_on(s: &[u32], n: usize, k: usize, y: u32) -> bool
    requires { 5 * n ≤ length s.now }
    ensures { result ≡ mate_on y (get_or (region s.now (3 * n) n) k 0) }
{
    if n <= k {
        return false;
    }
    let m = s[3 * n + k];
    if m == 0 {
        return false;
    }
    y == (m - 1) / 3
}

// Flags side k, where it has a mate of face y.
fn flag_side(s: &mut [u32], n: usize, k: usize, y: u32)
    requires { 5 * n ≤ length s.old }
    ensures { s.new ≡ put s.old (4 * n) (flag_at (region s.old (3 * n) n) y k (region s.old (4 * n) n)) }
{
    if mate_on(s, n, k, y) {
        s[4 * n + k] = 1;
    }
}

// Flags the sides of face x that have a mate of face y.
fn flag_pair(s: &mut [u32], n: usize, x: u32, y: u32)
    requires { 5 * n ≤ length s.old }
    ensures { s.new ≡ put s.old (4 * n) (flag_pair (region s.old (3 * n) n) x y (region s.old (4 * n) n)) }
{
    let k = 3 * x as usize;
    flag_side(s, n, k, y);
    flag_side(s, n, k + 1, y);
    flag_side(s, n, k + 2, y);
}

// Goes through the list of flips, pair by pair; a last number that has no other is no pair.
fn walk_flips(flips: &[u32], s: &mut [u32], n: usize)
    requires { 5 * n ≤ length s.old }
    ensures { s.new ≡ put s.old (4 * n) (flag_all (region s.old (3 * n) n) flips.now (region s.old (4 * n) n)) }
{
    for pair in flips.chunks_exact(2) {
        flag_pair(s, n, pair[0], pair[1]);
    }
}

// Flags the sides that are flipped with their mates, which are written for that and cleared after it.
fn flag_sides(flips: &[u32], s: &mut [u32], n: usize)
    requires n_in_bounds { (5 * n ≤ length s.old) × (n ≤ 3 * most_faces) }
    requires below { Below s.old n × (region s.old (3 * n) n ≡ replicate n 0) }
    ensures { s.new ≡ put s.old (4 * n) (flag_all (marks (groups_of (pair_in s.old n) (region s.old (2 * n) n)) (replicate n 0)) flips.now (region s.old (4 * n) n)) }
{
    if flips.len() < 2 {
        return;
    }
    write_mates(s, n);
    walk_flips(flips, s, n);
    let a = 3 * n;
    let e = 4 * n;
    clear(&mut s[a..e]);
}

// Writes the edges of a mesh to the front of s: the vertices of its sides, the sides by their pairs, and which edges of two faces are flipped.
// Nothing is changed where there are too many sides, or too few words.
pub fn edges(indices: &[u32], flips: &[u32], s: &mut [u32])
    ensures { s.new ≡ edges_in s.old indices.now flips.now }
{
    let n = indices.len();
    if 3 * MOST_FACES < n {
        return;
    }
    if s.len() < 5 * n {
        return;
    }
    sides(indices, s, n);
    flag_sides(flips, s, n);
}
