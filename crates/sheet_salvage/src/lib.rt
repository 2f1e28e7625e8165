// Salvage: a good sheet of what a torn one still holds, and how much was changed for it.
#![tactic(auto)]

ghost use Rattle.std.specs.Prelude.{Ok, ◌≡◌, true, ◌&&◌, not, cond, ◌+◌, ◌-◌, ◌*◌, ◌≤◌, length, ltb, eqb};
ghost use Rattle.std.proofs.lemmas.List.Edits.{sets};
ghost use Rattle.refusal.specs.Limits.{most_strokes, most_points};
ghost use Rattle.path.specs.Strokes.{gather};
ghost use Rattle.byte_words.specs.Bytes.{bytes_of};
ghost use Rattle.sheet.specs.Sheets.{header_words, numbers_from, word_at, stroke_count};
ghost use Rattle.sheet_salvage.specs.Salvage.{header_usable, lesser as lesser_of, taken_count, behind, saved_in, changed as changed_by, offsets_by, wild_in};
ghost use Rattle.sheet_salvage.specs.InnerPieces.{kept_from, start_after, end_of, saved_by, ignored_by, stroked_count, after, laid_at, LaysOver};
ghost use Rattle.sheet_salvage.specs.InnerScan.{num, keeps, good_of};
ghost use Rattle.sheet_salvage.specs.Call.{kept_verdict, said, left, salvaged, reported, salvage_left};

use path::Place;
use refusal::{MOST_POINTS, MOST_STROKES, Refusal};
use sheet::{
    HEADER_WORDS, MODE, NUMBERS_OFFSET, POINTS, STARTS_OFFSET, STROKES, VERTICES, counts_good,
    mode_good, numbers_from, put_word, word_at, write_header,
};

// What was salvaged: how many bytes were written, and what was changed for them: offsets, starts ignored, points dropped for
// their number, points dropped as leftovers.
#[derive(Clone, Copy, Debug, PartialEq, Eq)]
pub struct Salvaged {
    pub bytes: usize,
    pub offsets: usize,
    pub starts: usize,
    pub numbers: usize,
    pub leftovers: usize,
}

// Whether the header can be gone by, and all the starts that it states are there.
fn header_usable(bytes: &[u8]) -> bool
    ensures { result ≡ header_usable bytes.now }
{
    let strokes = word_at(bytes, STROKES);
    if !mode_good(word_at(bytes, MODE)) {
        return false;
    }
    if !counts_good(word_at(bytes, VERTICES) as usize, strokes as usize, 0) {
        return false;
    }
    4 * numbers_from(strokes) <= bytes.len()
}

// The lesser of two numbers.
fn lesser(x: usize, y: usize) -> usize
    ensures { result ≡ lesser_of x y }
{
    if x <= y {
        return x;
    }
    y
}

// How many points are taken: as many as are stated, if the bytes hold them whole and the limit allows it.
fn taken(bytes: &[u8]) -> usize
    ensures value { result ≡ taken_count bytes.now }
    ensures upper_bound { result ≤ most_points }
{
    let k = numbers_from(word_at(bytes, STROKES));
    let held = bytes.len() / 4;
    if held <= k {
        return 0;
    }
    lesser(
        word_at(bytes, POINTS) as usize,
        lesser(held - k, MOST_POINTS),
    )
}

// 1 where a number is below another.
fn below(x: usize, y: usize) -> usize
    ensures { (result ≡ num (ltb x y)) × (result ≤ 1) }
{
    if x < y {
        return 1;
    }
    0
}

// 1 where there is a point at place i, before e, and its number is below n. (A number and no bool, here and below: they are added up,
// and a branch would go by chance.)
fn good_one(number: u32, n: u32, i: usize, e: usize) -> usize
    ensures { (result ≡ num (ltb number n && ltb i e)) × (result ≤ 1) }
{
    below(number as usize, n as usize) & below(i, e)
}

// 1 where a point is kept, of 1 or 0 for what is known of it: it is all of its stroke, the one before it is below n, it is itself,
// the one behind it is. Bits are put together, since a branch here would go by chance.
fn kept_one(single: usize, prev: usize, here: usize, next: usize) -> usize
    requires { (single ≤ 1) × (prev ≤ 1) × (here ≤ 1) × (next ≤ 1) }
    ensures { (result ≡ num (keeps (eqb single 1) (eqb prev 1) (eqb here 1) (eqb next 1))) × (result ≤ 1) }
{
    here & (single | prev | next)
}

// 1 where a stroke begins with a point: it is kept, and the one before it is not below n.
fn begun_one(keep: usize, prev: usize) -> usize
    requires { (keep ≤ 1) × (prev ≤ 1) }
    ensures { (result ≡ num (eqb keep 1 && not (eqb prev 1))) × (result ≤ 1) }
{
    keep & (1 - prev)
}

// What is counted: where the next point and the next start go, how many points are below n, and how many starts are ignored.
#[derive(Clone, Copy)]
struct Tally {
    kept: Place,
    good: usize,
    ignored: usize,
}

// Counts the stroke from a up to e; one without points comes of a start that is ignored.
fn count_stroke(bytes: &[u8], k: usize, a: usize, e: usize, n: u32, at: Tally) -> Tally
    requires { (a ≤ e) × (e ≤ most_points) × (k ≤ numbers_from most_strokes) × (at.kept.points ≤ a) × (at.kept.starts ≤ a) × (at.good ≤ a) × (at.ignored ≤ most_strokes) }
    ensures kept_value { result.kept ≡ after at.kept (kept_from n (behind bytes.now k) a e) }
    ensures good_value { (result.good ≡ at.good + good_of n (gather (behind bytes.now k) a (e - a))) × (result.ignored ≡ at.ignored + num (eqb a e)) }
    ensures points_le_e { (result.kept.points ≤ e) × (result.kept.starts ≤ e) × (result.good ≤ e) }
{
    let single = below(e - a, 2);
    let mut points = at.kept.points;
    let mut starts = at.kept.starts;
    let mut good = at.good;
    let mut prev: usize = 0;
    let mut here = good_one(word_at(bytes, k + a), n, a, e);
    for i in a..e {
        let next = good_one(word_at(bytes, k + i + 1), n, i + 1, e);
        let keep = kept_one(single, prev, here, next);
        points += keep;
        starts += begun_one(keep, prev);
        good += here;
        prev = here;
        here = next;
    }
    Tally {
        kept: Place {
            points: points,
            starts: starts,
        },
        good: good,
        ignored: at.ignored + 1 - below(a, e),
    }
}

// Where the stroke from a on ends by the i-th start, of m points: there if the start is taken, else not yet.
fn start_after(bytes: &[u8], i: usize, a: usize, m: usize) -> usize
    requires { i ≤ most_strokes }
    ensures { result ≡ start_after m a (word_at bytes.now (header_words + i)) }
{
    let s = word_at(bytes, HEADER_WORDS + i) as usize;
    if s <= a {
        return a;
    }
    if m <= s {
        return a;
    }
    s
}

// Where the stroke from a on ends, by the i-th start; the last stroke with the points.
fn end_of(bytes: &[u8], i: usize, strokes: u32, a: usize, m: usize) -> usize
    requires { i ≤ most_strokes }
    ensures { result ≡ end_of m strokes (word_at bytes.now) i a }
{
    if i < strokes as usize {
        return start_after(bytes, i, a, m);
    }
    m
}

// Counts all strokes of m points.
fn count_strokes(bytes: &[u8], strokes: u32, m: usize, n: u32) -> Tally
    requires { (strokes ≤ most_strokes) × (m ≤ most_points) }
    ensures kept_value { result.kept ≡ after (record { points = 0; starts = 0 }) (saved_by n (behind bytes.now (numbers_from strokes)) m strokes (word_at bytes.now) 1 0) }
    ensures good_value { result.good ≡ good_of n (gather (behind bytes.now (numbers_from strokes)) 0 (cond (eqb strokes 0) 0 m)) }
    ensures ignored_value { result.ignored ≡ ignored_by m strokes (word_at bytes.now) 1 0 }
    ensures points_le_m { (result.kept.points ≤ m) × (result.kept.starts ≤ m) × (result.ignored ≤ most_strokes) }
{
    let k = numbers_from(strokes);
    let mut a: usize = 0;
    let mut p = Tally {
        kept: Place {
            points: 0,
            starts: 0,
        },
        good: 0,
        ignored: 0,
    };
    for i in 1..strokes as usize + 1 {
        let e = end_of(bytes, i, strokes, a, m);
        p = count_stroke(bytes, k, a, e, n, p);
        a = e;
    }
    p
}

// 1 where a number is not what it is to be.
fn changed(stated: usize, written: usize) -> usize
    ensures { result ≡ changed_by stated written }
{
    if stated == written {
        return 0;
    }
    1
}

// How many starts are ignored, where so many strokes had no points: a first start that says other than 0 is one more, if there are points.
fn ignored(bytes: &[u8], strokes: u32, m: usize, empty: usize) -> usize
    requires { empty ≤ most_strokes }
    ensures { result ≡ cond (eqb strokes 0) empty (cond (eqb m 0) empty (changed_by (word_at bytes.now header_words) 0 + empty)) }
{
    if strokes == 0 {
        return empty;
    }
    if m == 0 {
        return empty;
    }
    changed(word_at(bytes, HEADER_WORDS) as usize, 0) + empty
}

// Stores a word where it is one of the first `total` from word `base` on.
fn put_below(out: &mut [u8], base: usize, at: usize, total: usize, w: u32)
    requires { (base ≤ numbers_from most_strokes) × (at ≤ most_points) }
    ensures { out.new ≡ cond (ltb at total) (sets out.old ((base + at) * 4) (bytes_of w)) out.old }
{
    if at < total {
        put_word(out, base + at, w);
    }
}

// Stores what is kept of the stroke from a up to e, of a sheet of so many points and strokes in all. Each point is stored where the next one
// kept goes, and a start with it; what is not kept is stored over by what follows, and past the last of all nothing is stored.
fn write_stroke(
    bytes: &[u8],
    k: usize,
    a: usize,
    e: usize,
    n: u32,
    out: &mut [u8],
    total: Place,
    at: Place,
) -> Place
    requires { (a ≤ e) × (e ≤ most_points) × (k ≤ numbers_from most_strokes) × (total.starts ≤ most_strokes) × (at.points ≤ a) × (at.starts ≤ a) }
    ensures lays_over { LaysOver out.old out.new total at (kept_from n (behind bytes.now k) a e) }
    ensures value { (result ≡ after at (kept_from n (behind bytes.now k) a e)) × (result.points ≤ e) × (result.starts ≤ e) }
{
    let single = below(e - a, 2);
    let base = HEADER_WORDS + total.starts;
    let mut points = at.points;
    let mut starts = at.starts;
    let mut prev: usize = 0;
    let mut w = word_at(bytes, k + a);
    let mut here = good_one(w, n, a, e);
    for i in a..e {
        let v = word_at(bytes, k + i + 1);
        let next = good_one(v, n, i + 1, e);
        let keep = kept_one(single, prev, here, next);
        put_below(out, base, points, total.points, w);
        put_below(out, HEADER_WORDS, starts, total.starts, points as u32);
        points += keep;
        starts += begun_one(keep, prev);
        prev = here;
        here = next;
        w = v;
    }
    Place {
        points: points,
        starts: starts,
    }
}

// Stores what is kept of all strokes of m points.
fn write_strokes(bytes: &[u8], strokes: u32, m: usize, n: u32, out: &mut [u8], total: Place)
    requires { (strokes ≤ most_strokes) × (m ≤ most_points) × (total.starts ≤ most_strokes)
        × (total ≡ after (record { points = 0; starts = 0 }) (saved_by n (behind bytes.now (numbers_from strokes)) m strokes (word_at bytes.now) 1 0)) }
    ensures { out.new ≡ laid_at out.old (header_words + total.starts) (record { points = 0; starts = 0 })
        (saved_by n (behind bytes.now (numbers_from strokes)) m strokes (word_at bytes.now) 1 0) }
{
    let k = numbers_from(strokes);
    let mut a: usize = 0;
    let mut p = Place {
        points: 0,
        starts: 0,
    };
    for i in 1..strokes as usize + 1 {
        let e = end_of(bytes, i, strokes, a, m);
        p = write_stroke(bytes, k, a, e, n, out, total, p);
        a = e;
    }
}

// The points that strokes have: with no strokes stated none.
fn stroked(strokes: u32, m: usize) -> usize
    ensures { result ≡ cond (eqb strokes 0) 0 m }
{
    if strokes == 0 {
        return 0;
    }
    m
}

// The tests of what is kept: too many strokes, then room.
fn kept_verdict(strokes: usize, points: usize, room: usize) -> Result<(), Refusal>
    requires { (strokes ≤ most_points) × (points ≤ most_points) }
    ensures { result ≡ kept_verdict strokes points room }
{
    if MOST_STROKES < strokes {
        return Err(Refusal::Count);
    }
    if room < 4 * (numbers_from(strokes as u32) + points) {
        return Err(Refusal::Room);
    }
    Ok(())
}

// The offsets that are written other than stated, in a sheet of so many strokes.
fn offsets(bytes: &[u8], strokes: usize) -> usize
    requires { strokes ≤ most_strokes }
    ensures { result ≡ offsets_by bytes.now strokes }
{
    changed(word_at(bytes, STARTS_OFFSET) as usize, 4 * HEADER_WORDS)
        + changed(
            word_at(bytes, NUMBERS_OFFSET) as usize,
            4 * numbers_from(strokes as u32),
        )
}

// Stores the sheet of what is kept of m points.
fn write_kept(bytes: &[u8], m: usize, kept: Place, out: &mut [u8])
    requires { (header_usable bytes.now ≡ true) × (m ≡ taken_count bytes.now) × (kept ≡ after (record { points = 0; starts = 0 }) (saved_in bytes.now)) × (length (saved_in bytes.now) ≤ most_strokes) }
    ensures { out.new ≡ sets out.old 0 (salvaged bytes.now) }
{
    let vertices = word_at(bytes, VERTICES);
    write_header(
        out,
        word_at(bytes, MODE),
        vertices,
        kept.starts as u32,
        kept.points as u32,
    );
    write_strokes(bytes, word_at(bytes, STROKES), m, vertices, out, kept);
}

// What is said of the sheet of what was counted.
fn report(bytes: &[u8], t: Tally) -> Salvaged
    requires bytes_value { (header_usable bytes.now ≡ true) × (t.kept ≡ after (record { points = 0; starts = 0 }) (saved_in bytes.now)) × (length (saved_in bytes.now) ≤ most_strokes) }
    requires bytes_value_2 { (t.good + wild_in bytes.now ≡ stroked_count bytes.now) × (t.ignored ≡ ignored_by (taken_count bytes.now) (stroke_count bytes.now) (word_at bytes.now) 1 0) × (t.ignored ≤ most_strokes) }
    ensures { said (Ok result) ≡ reported bytes.now }
{
    let strokes = word_at(bytes, STROKES);
    let m = taken(bytes);
    let numbers = stroked(strokes, m) - t.good;
    Salvaged {
        bytes: 4 * (numbers_from(t.kept.starts as u32) + t.kept.points),
        offsets: offsets(bytes, t.kept.starts),
        starts: ignored(bytes, strokes, m, t.ignored),
        numbers: numbers,
        leftovers: m - t.kept.points - numbers,
    }
}

// Salvages a sheet whose header can be gone by: one pass counts, and where there is room for what is kept a second stores it.
fn salvage_usable(bytes: &[u8], out: &mut [u8]) -> Result<Salvaged, Refusal>
    requires { header_usable bytes.now ≡ true }
    ensures { left (said result) out.new ≡ salvage_left bytes.now out.old }
{
    let m = taken(bytes);
    let t = count_strokes(bytes, word_at(bytes, STROKES), m, word_at(bytes, VERTICES));
    kept_verdict(t.kept.starts, t.kept.points, out.len())?;
    write_kept(bytes, m, t.kept, out);
    Ok(report(bytes, t))
}

// Writes a good sheet of what the bytes still hold of one, and says what was changed for it.
pub fn salvage_sheet(bytes: &[u8], out: &mut [u8]) -> Result<Salvaged, Refusal>
    ensures { left (said result) out.new ≡ salvage_left bytes.now out.old }
{
    if !header_usable(bytes) {
        return Err(Refusal::Sheet);
    }
    salvage_usable(bytes, out)
}
