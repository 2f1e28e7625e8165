// The rows of stored answers: their words, the lists that a call is lent, what it left there, and how many rows differ.
//
// A row is words of hexadecimal digits with a space between: the function's number, the status, and what the function takes and
// gives. Two NaN count as equal.
#![tactic(auto)]

ghost use Rattle.std.specs.Prelude.{◌≡◌, ℕ, Bool, List, [], ◌∷◌, ◌%◌, ◌*◌, ◌/◌, ◌<◌, ◌≤◌, length, ◌==◌, from_bits, slice_index, Float, IfOk, IfSome};
ghost use Rattle.std.specs.Float.{binary64};
ghost use Rattle.std.specs.Float.Ieee.{nan_bits};
ghost use Rattle.replay_rows.specs.declared.Page.{Page};
ghost use Rattle.replay_rows.specs.Words.{same_of, past_of};
ghost use Rattle.replay_rows.specs.Pages.{blank, word_of, list_size, point_of, matrix_of};
ghost use Rattle.replay_rows.specs.Lists.{filled, held, expected};
ghost use Rattle.replay_rows.specs.Answers.{status_of, answer_said, ends_at, elements_of, head_is, lists_left, points_left, numbers_left, bytes_left, wrote_of, refused_by, count_is, counts_are, any_head, any_lists, any_points, any_numbers, scratch_of};
ghost use Rattle.replay_rows.specs.Rows.{hex_of, with_digit, with_end, fed, kind_of, one_more, counted, names_in};

use path::Place;
use refusal::{Refusal, number};
use std::io;
use std::io::Read;
use vector::Vector;
use vector::matrix::Matrix;

// The most words of a row.
const WORDS: usize = 248;

// What every list that is lent holds before a call: words, bytes and coordinates, and the pattern of these.
pub const DIRT: u32 = 7;

pub const DUST: u8 = 7;

pub const GRIT: f64 = 9.0;

pub const GRIT_BITS: u64 = 0x4022_0000_0000_0000;

// ---- words

// Whether a pattern is a NaN's.
fn no_number(bits: u64) -> bool
    ensures { result ≡ nan_bits binary64 bits }
{
    bits % 0x8000_0000_0000_0000 > 0x7ff0_0000_0000_0000
}

// The f64 of a pattern. Every NaN is one.
pub fn real(bits: u64) -> f64
    ensures { result ≡ from_bits binary64 bits }
{
    if no_number(bits) {
        return 0.0 / 0.0;
    }
    f64::from_bits(bits)
}

// Whether x has this pattern, or both are NaN.
pub fn same(x: f64, bits: u64) -> bool
    ensures { result ≡ same_of x bits }
{
    if x == x {
        return f64::to_bits(x) == bits;
    }
    no_number(bits)
}

// An element of a list, which stands in a row as a word.
pub trait Element: Copy {
    ghost of: { ℕ → Self };

    ghost is: { Self → ℕ → Bool };

    // The element that a word says.
    fn of_word(word: u64) -> Self
        ensures { result ≡ of word };

    // Whether the element is the one that a word says.
    fn is_word(self, word: u64) -> bool
        ensures { result ≡ is self word };
}

impl Element for u8 {
    ghost of = { λ w. w % 256 };

    ghost is = { λ x w. x == w };

    fn of_word(word: u64) -> u8 {
        (word % 256) as u8
    }

    fn is_word(self, word: u64) -> bool {
        self as u64 == word
    }
}

impl Element for u32 {
    ghost of = { λ w. w % 4294967296 };

    ghost is = { λ x w. x == w };

    fn of_word(word: u64) -> u32 {
        (word % 4294967296) as u32
    }

    fn is_word(self, word: u64) -> bool {
        self as u64 == word
    }
}

impl Element for u64 {
    ghost of = { λ w. w };

    ghost is = { λ x w. x == w };

    fn of_word(word: u64) -> u64 {
        word
    }

    fn is_word(self, word: u64) -> bool {
        self == word
    }
}

impl Element for f64 {
    ghost of = { λ w. from_bits binary64 w };

    ghost is = { λ x w. same_of x w };

    fn of_word(word: u64) -> f64 {
        real(word)
    }

    fn is_word(self, word: u64) -> bool {
        same(self, word)
    }
}

// The place n words after another; 249 is past every row.
#[tactic(auto, unfolding(crate::specs::Words::past_of))]
pub fn past(at: usize, n: usize) -> usize
    ensures { result ≡ past_of at n }
{
    if at < 249 {
        if n < 249 - at {
            return at + n;
        }
    }
    249
}

// A count of elements that a call answered; 249 is more than a row has.
#[tactic(auto, unfolding(crate::specs::Answers::elements_of))]
pub fn elements(n: u64) -> usize
    ensures { (result ≡ elements_of n) × (result ≤ 249) }
{
    if n < 249 {
        return n as usize;
    }
    249
}

// What scratch that held x holds after a call of this status: zero where it was accepted.
#[tactic(auto, unfolding(crate::specs::Answers::scratch_of))]
fn scratch_of(status: u64, x: u64) -> u64
    ensures { result ≡ scratch_of status x }
{
    if status == 0 {
        return 0;
    }
    x
}

// ---- rows

// A row as it is read: its words, how many of them are whole, and whether a byte came that belongs to no row.
#[derive(Clone, Copy)]
pub struct Page {
    pub words: [u64; WORDS],
    pub whole: usize,
    pub spoilt: bool,
}

impl Page {
    pub fn new() -> Page
        ensures { result ≡ blank }
    {
        Page {
            words: [0; WORDS],
            whole: 0,
            spoilt: false,
        }
    }

    // The word at a place, 0 past the row.
    #[tactic(auto, unfolding(crate::specs::Pages::word_of))]
    pub fn word(&self, at: usize) -> u64
        ensures { result ≡ word_of self.now at }
    {
        if at < WORDS {
            return self.words[at];
        }
        0
    }

    // A count of a list, which has at most 96.
    #[tactic(auto, unfolding(crate::specs::Pages::list_size))]
    pub fn size(&self, at: usize) -> usize
        ensures { (result ≡ list_size self.now at) × (result ≤ 96) }
    {
        let n = self.word(at);
        if n < 96 {
            return n as usize;
        }
        96
    }

    // The element at a place.
    pub fn element<T: Element>(&self, at: usize) -> T
        ensures { result ≡ T.of (word_of self.now at) }
    {
        T::of_word(self.word(at))
    }

    // The point at a place.
    #[tactic(auto, unfolding(crate::specs::Pages::point_of))]
    pub fn point(&self, at: usize) -> Vector
        ensures { result ≡ point_of self.now at }
    {
        Vector {
            x: self.element(at),
            y: self.element(past(at, 1)),
            z: self.element(past(at, 2)),
        }
    }

    // The matrix at a place, row by row.
    #[tactic(auto, unfolding(crate::specs::Pages::matrix_of, crate::specs::Lists::filled))]
    pub fn matrix(&self, at: usize) -> Matrix
        ensures { result ≡ matrix_of self.now at }
    {
        let mut m = [0.0; 16];
        self.fill(at, &mut m);
        Matrix {
            x00: m[0],
            x01: m[1],
            x02: m[2],
            x03: m[3],
            x10: m[4],
            x11: m[5],
            x12: m[6],
            x13: m[7],
            x20: m[8],
            x21: m[9],
            x22: m[10],
            x23: m[11],
            x30: m[12],
            x31: m[13],
            x32: m[14],
            x33: m[15],
        }
    }

    // Fills a list with the elements from a place on.
    pub fn fill<T: Element>(&self, at: usize, list: &mut [T])
        ensures { list.new ≡ filled (λ i. T.of (word_of self.now (past_of at i))) list.old (length list.old) }
    {
        for i in 0..list.len() {
            list[i] = self.element(past(at, i));
        }
    }

    // What is to stand at place i of a list that begins with n words and is as it was after them.
    #[tactic(auto, unfolding(crate::specs::Lists::expected))]
    fn expect(&self, at: usize, n: usize, rest: u64, i: usize) -> u64
        ensures { result ≡ expected self.now at n rest i }
    {
        if i < n {
            return self.word(past(at, i));
        }
        rest
    }

    // Whether a list begins with n words, and is as it was after them.
    pub fn begins<T: Element>(&self, at: usize, n: usize, list: &[T], rest: u64) -> bool
        ensures { result ≡ held T.is (expected self.now at n rest) 0 list.now }
    {
        for (i, x) in list.iter().enumerate() {
            if !x.is_word(self.expect(at, n, rest, i)) {
                return false;
            }
        }
        true
    }

    // Whether the row ends at a place, and has this status.
    #[tactic(auto, unfolding(crate::specs::Answers::ends_at))]
    pub fn ends(&self, at: usize, status: u64) -> bool
        ensures { result ≡ ends_at self.now at status }
    {
        self.whole == at && self.words[1] == status
    }
}

// ---- answers

// The status of an answer: 0, or the refusal's number.
#[tactic(auto, unfolding(crate::specs::Answers::status_of))]
pub fn status<T>(answer: &Result<T, Refusal>) -> u64
    ensures { result ≡ status_of answer.now }
{
    match answer {
        Ok(_) => 0,
        Err(why) => number(*why) as u64,
    }
}

// The counts of a call that wrote points and starts.
pub fn placed(p: Place) -> [u64; 2]
    ensures { result ≡ p.points ∷ p.starts ∷ [] }
{
    [p.points as u64, p.starts as u64]
}

// A count of an answer, 0 where it has no such count.
fn count_at(counts: &[u64], i: usize) -> u64
    ensures { result ≡ slice_index counts.now i }
{
    counts.get(i).copied().unwrap_or(0)
}

impl Page {
    // Whether the row has these counts from a place on, ends after two lists of n and m words behind them, and has this status.
    #[tactic(auto, unfolding(crate::specs::Answers::head_is))]
    pub fn head_is(&self, at: usize, status: u64, counts: &[u64], n: usize, m: usize) -> bool
        ensures { result ≡ head_is self.now at status counts.now n m }
    {
        let end = past(past(past(at, counts.len()), n), m);
        self.begins(at, counts.len(), counts, 0) && self.ends(end, status)
    }

    // Whether two lists were left as the row says from place `at` on, `each` words an element of the first, which held `rest`: all as it
    // was where the call was refused, and so had no counts.
    #[tactic(auto, unfolding(crate::specs::Answers::lists_left))]
    pub fn lists_left<T: Element>(
        &self,
        at: usize,
        status: u64,
        counts: &[u64],
        each: u8,
        list: &[T],
        rest: u64,
        starts: &[u32],
    ) -> bool
        ensures { result ≡ lists_left T.is self.now at status counts.now each list.now rest starts.now }
    {
        let n = elements(count_at(counts, 0)) * each as usize;
        let m = elements(count_at(counts, 1));
        let p = past(at, counts.len());
        self.head_is(at, status, counts, n, m)
            && self.begins(p, n, list, rest)
            && self.begins(past(p, n), m, starts, DIRT as u64)
    }

    // Whether points and starts were left as the row says from place `at` on.
    pub fn points_left<A: Answered>(
        &self,
        at: usize,
        answer: &A,
        points: &[f64],
        starts: &[u32],
    ) -> bool
        ensures { result ≡ A.points answer.now self.now at points.now starts.now }
    {
        answer.points_held(self, at, points, starts)
    }

    // The same of numbers and starts.
    pub fn numbers_left<A: Answered>(
        &self,
        at: usize,
        answer: &A,
        numbers: &[u32],
        starts: &[u32],
    ) -> bool
        ensures { result ≡ A.numbers answer.now self.now at numbers.now starts.now }
    {
        answer.numbers_held(self, at, numbers, starts)
    }

    // The same of bytes alone.
    #[tactic(auto, unfolding(crate::specs::Answers::status_of))]
    pub fn bytes_left<const N: usize>(
        &self,
        at: usize,
        answer: &Result<[u64; N], Refusal>,
        bytes: &[u8],
    ) -> bool
        ensures { result ≡ bytes_left self.now at (answer_said answer.now) bytes.now }
    {
        match answer {
            Ok(counts) => self.lists_left(at, 0, counts, 1, bytes, DUST as u64, &[]),
            Err(_) => self.lists_left(at, status(answer), &[], 1, bytes, DUST as u64, &[]),
        }
    }

    // Whether scratch that held `rest` is all as a call of this status leaves it.
    pub fn scratch_left<T: Element>(&self, status: u64, scratch: &[T], rest: u64) -> bool
        ensures { result ≡ held T.is (expected self.now 0 0 (scratch_of status rest)) 0 scratch.now }
    {
        self.begins(0, 0, scratch, scratch_of(status, rest))
    }
}

// What a call answered, to which a row is held.
pub trait Answered {
    ghost points: { Self → Page → ℕ → List Float → List ℕ → Bool };

    ghost numbers: { Self → Page → ℕ → List ℕ → List ℕ → Bool };

    // Whether points and starts were left as a row says from place `at` on.
    fn points_held(&self, page: &Page, at: usize, list: &[f64], starts: &[u32]) -> bool
        ensures { result ≡ points self.now page.now at list.now starts.now };

    // The same of numbers and starts.
    fn numbers_held(&self, page: &Page, at: usize, list: &[u32], starts: &[u32]) -> bool
        ensures { result ≡ numbers self.now page.now at list.now starts.now };
}

impl<const N: usize> Answered for Result<[u64; N], Refusal> {
    ghost points = { λ answer page at ps ss. points_left page at (answer_said answer) ps ss };

    ghost numbers = { λ answer page at ns ss. numbers_left page at (answer_said answer) ns ss };

    #[tactic(auto, unfolding(crate::specs::Answers::status_of))]
    fn points_held(&self, page: &Page, at: usize, list: &[f64], starts: &[u32]) -> bool {
        match self {
            Ok(counts) => page.lists_left(at, 0, counts, 3, list, GRIT_BITS, starts),
            Err(_) => page.lists_left(at, status(self), &[], 3, list, GRIT_BITS, starts),
        }
    }

    #[tactic(auto, unfolding(crate::specs::Answers::status_of))]
    fn numbers_held(&self, page: &Page, at: usize, list: &[u32], starts: &[u32]) -> bool {
        match self {
            Ok(counts) => page.lists_left(at, 0, counts, 1, list, DIRT as u64, starts),
            Err(_) => page.lists_left(at, status(self), &[], 1, list, DIRT as u64, starts),
        }
    }
}

// An answer of any status and any counts, also one that no call gives: so many words of the row are its counts, of which the first four are
// held to it. What was written are two lists, as long as the first two say, whether or not the row has these.
#[derive(Clone, Copy)]
pub struct Answer {
    pub status: u64,
    pub counts: usize,
    pub first: u64,
    pub second: u64,
    pub third: u64,
    pub fourth: u64,
}

// An accepted call that counted two lists.
pub fn wrote(first: usize, second: usize) -> Answer
    ensures { result ≡ wrote_of first second }
{
    Answer {
        status: 0,
        counts: 2,
        first: first as u64,
        second: second as u64,
        third: 0,
        fourth: 0,
    }
}

// A refused call, by any number.
pub fn refused(status: u32) -> Answer
    ensures { result ≡ refused_by status }
{
    Answer {
        status: status as u64,
        counts: 0,
        first: 0,
        second: 0,
        third: 0,
        fourth: 0,
    }
}

impl Answer {
    // Whether count number i, where the row has so many, is x.
    #[tactic(auto, unfolding(crate::specs::Answers::count_is))]
    fn count_is(&self, page: &Page, at: usize, i: usize, x: u64) -> bool
        ensures { result ≡ count_is page.now at self.now.counts i x }
    {
        if i < self.counts {
            return page.word(past(at, i)) == x;
        }
        true
    }

    // Whether the row has its counts from place `at` on, of the first four so many as it has.
    #[tactic(auto, unfolding(crate::specs::Answers::counts_are))]
    fn counts_are(&self, page: &Page, at: usize) -> bool
        ensures { result ≡ counts_are page.now at self.now }
    {
        self.count_is(page, at, 0, self.first)
            && self.count_is(page, at, 1, self.second)
            && self.count_is(page, at, 2, self.third)
            && self.count_is(page, at, 3, self.fourth)
    }

    // The same, and that the row ends after two lists of n and m words behind the counts, and has this status.
    #[tactic(auto, unfolding(crate::specs::Answers::any_head))]
    pub fn head_is(&self, page: &Page, at: usize, n: usize, m: usize) -> bool
        ensures { result ≡ any_head page.now at self.now n m }
    {
        let end = past(past(past(at, self.counts), n), m);
        self.counts_are(page, at) && page.ends(end, self.status)
    }

    // Whether two lists were left as the row says, as `Page::lists_left` does.
    #[tactic(auto, unfolding(crate::specs::Answers::any_lists))]
    fn lists_left<T: Element>(
        &self,
        page: &Page,
        at: usize,
        each: u8,
        list: &[T],
        rest: u64,
        starts: &[u32],
    ) -> bool
        ensures { result ≡ any_lists T.is page.now at self.now each list.now rest starts.now }
    {
        let n = elements(self.first) * each as usize;
        let m = elements(self.second);
        let p = past(at, self.counts);
        self.head_is(page, at, n, m)
            && page.begins(p, n, list, rest)
            && page.begins(past(p, n), m, starts, DIRT as u64)
    }
}

impl Answered for Answer {
    ghost points = { λ answer page at ps ss. any_points page at answer ps ss };

    ghost numbers = { λ answer page at ns ss. any_numbers page at answer ns ss };

    fn points_held(&self, page: &Page, at: usize, list: &[f64], starts: &[u32]) -> bool {
        self.lists_left(page, at, 3, list, GRIT_BITS, starts)
    }

    fn numbers_held(&self, page: &Page, at: usize, list: &[u32], starts: &[u32]) -> bool {
        self.lists_left(page, at, 1, list, DIRT as u64, starts)
    }
}

// ---- reading

// The value of a digit, none where the byte is no digit.
#[tactic(auto, unfolding(crate::specs::Rows::hex_of))]
fn digit(b: u8) -> Option<u64>
    ensures value { result ≡ hex_of b }
    ensures bound { IfSome result (λ d. d < 16) }
{
    match b {
        b'0'..=b'9' => Some(b as u64 - 48),
        b'a'..=b'f' => Some(b as u64 - 87),
        _ => None,
    }
}

impl Page {
    // A digit more of the word that is being read; a byte that is no digit, or a word too many, spoils the row.
    #[tactic(auto, unfolding(crate::specs::Rows::with_digit))]
    fn add_digit(&mut self, b: u8)
        ensures { self.new ≡ with_digit self.old b }
    {
        match digit(b) {
            Some(d) if self.whole < WORDS => {
                let w = self.words[self.whole];
                self.words[self.whole] = w % 0x1000_0000_0000_0000 * 16 + d;
            }
            _ => self.spoilt = true,
        }
    }

    // The word that was being read is whole.
    #[tactic(auto, unfolding(crate::specs::Rows::with_end))]
    fn end_word(&mut self)
        ensures { self.new ≡ with_end self.old }
    {
        if self.whole < WORDS {
            self.whole += 1;
        }
    }

    // Takes a byte in, and answers whether it ends the row.
    #[tactic(auto, unfolding(crate::specs::Rows::fed))]
    pub fn take_byte(&mut self, b: u8) -> bool
        ensures { (self.new ≡ fed self.old b) × (result ≡ (b == 10)) }
    {
        match b {
            b'\n' | b' ' => self.end_word(),
            _ => self.add_digit(b),
        }
        b == b'\n'
    }

    // The function of a row, 0 where it is none.
    #[tactic(auto, unfolding(crate::specs::Rows::kind_of))]
    fn kind(&self, functions: usize) -> usize
        ensures { (result ≡ kind_of self.now functions) × (result < 32) }
    {
        let function = self.words[0];
        if functions < 33 {
            if function < functions as u64 {
                return function as usize;
            }
        }
        0
    }
}

// ---- counting

// How many rows of a function came, and how many of them differ.
#[derive(Clone, Copy)]
pub struct Count {
    pub rows: u64,
    pub differ: u64,
}

impl Count {
    // One row more.
    #[tactic(auto, unfolding(crate::specs::Rows::one_more))]
    fn add(&mut self, agrees: bool)
        ensures { self.new ≡ one_more self.old agrees }
    {
        self.rows = self.rows.wrapping_add(1);
        if !agrees {
            self.differ = self.differ.wrapping_add(1);
        }
    }
}

// Counts a row that is whole, as one that differs if it does not agree or is none; the next begins.
#[tactic(auto, unfolding(crate::specs::Rows::counted))]
pub fn end_row(page: &mut Page, counts: &mut [Count; 32], functions: usize, agrees: bool)
    ensures { (page.new ≡ blank) × (counts.new ≡ counted page.old counts.old functions agrees) }
{
    let k = page.kind(functions);
    counts[k].add(agrees && !page.spoilt);
    *page = Page::new();
}

// How a program works its rows out.
pub trait Rows {
    // Whether a row is one of the program's and leaves what it says.
    fn agrees(&self, page: &Page) -> bool;
}

fn take_bytes(
    bytes: &[u8],
    page: &mut Page,
    counts: &mut [Count; 32],
    functions: usize,
    rows: &impl Rows,
) {
    for b in bytes {
        if page.take_byte(*b) {
            let agrees = rows.agrees(page);
            end_row(page, counts, functions, agrees);
        }
    }
}

// Reads to the end. Nothing says that an input ends, so the turns are counted to a number that no run uses up.
fn read_rows(
    input: &mut impl Read,
    counts: &mut [Count; 32],
    functions: usize,
    rows: &impl Rows,
) -> io::Result<()> {
    let mut buffer = [0u8; 65536];
    let mut page = Page::new();
    for _ in 0..u64::MAX {
        let n = input.read(&mut buffer)?;
        if n == 0 {
            break;
        }
        take_bytes(&buffer[..n], &mut page, counts, functions, rows);
    }
    Ok(())
}

// ---- what is printed

// What a list of names is made of: texts, each a name, or bytes, whatever they are, sixteen a name.
pub trait Naming: Sized {
    ghost number: { List Self → ℕ };

    // How many names a list has.
    fn number(names: &[Self]) -> usize
        ensures { result ≡ number names.now };

    // Prints the line of name number k; nothing if there is none.
    fn print_line(names: &[Self], rt: &impl Print, k: usize, count: Count) -> io::Result<()>;
}

impl Naming for &str {
    ghost number = { length };

    fn number(names: &[&str]) -> usize {
        names.len()
    }

    fn print_line(names: &[&str], rt: &impl Print, k: usize, count: Count) -> io::Result<()> {
        match names.get(k) {
            Some(name) => println!(rt; "{name:<16} {} rows, {} differ", count.rows, count.differ),
            None => Ok(()),
        }
    }
}

impl Naming for u8 {
    ghost number = { λ bytes. length bytes / 16 };

    fn number(names: &[u8]) -> usize {
        names.len() / 16
    }

    fn print_line(names: &[u8], rt: &impl Print, k: usize, count: Count) -> io::Result<()> {
        match names.chunks_exact(16).nth(k) {
            Some(name) => {
                rt.write_all(name)?;
                println!(rt; " {} rows, {} differ", count.rows, count.differ)
            }
            None => Ok(()),
        }
    }
}

// Prints a line for each name, at most 32, and one for all, and answers how many names there are. No contract can say what is printed.
#[tactic(auto, unfolding(crate::specs::Rows::names_in))]
pub fn print_rows<N: Naming>(
    rt: &impl Print,
    names: &[N],
    counts: &[Count; 32],
) -> io::Result<usize>
    ensures { IfOk result (λ n. n ≡ names_in (N.number names.now)) }
{
    let n = N::number(names).min(32);
    let mut all = Count { rows: 0, differ: 0 };
    for (k, count) in counts.iter().enumerate().take(n) {
        N::print_line(names, rt, k, *count)?;
    }
    for count in counts {
        all.rows = all.rows.wrapping_add(count.rows);
        all.differ = all.differ.wrapping_add(count.differ);
    }
    println!(rt; "{:<16} {} rows, {} differ", "all", all.rows, all.differ)?;
    Ok(n)
}

// Reads rows to the end of an input, works each out as a program does, prints how many came and how many differ, and answers how many
// names there are, at most 32. The first name is that of no function. No contract can say what is read and printed.
pub fn replay_program(
    rt: &impl Print,
    input: &mut impl Read,
    names: &[&str],
    rows: &impl Rows,
) -> io::Result<usize>
    ensures { IfOk result (λ n. n ≡ names_in (length names.now)) }
{
    let mut counts = [Count { rows: 0, differ: 0 }; 32];
    read_rows(input, &mut counts, names.len(), rows)?;
    print_rows(rt, names, &counts)
}

// ---- the same by a closure
//
// A `Rows` cannot hold a closure of which it is known that it may be called, so the loops stand here again for one.

fn take_bytes_by<F: Fn(&Page) -> bool>(
    bytes: &[u8],
    page: &mut Page,
    counts: &mut [Count; 32],
    functions: usize,
    agrees: &F,
)
    requires { F.IsAlwaysCallable agrees.now }
{
    for b in bytes {
        if page.take_byte(*b) {
            let agreed = agrees(page);
            end_row(page, counts, functions, agreed);
        }
    }
}

fn read_rows_by<F: Fn(&Page) -> bool>(
    input: &mut impl Read,
    counts: &mut [Count; 32],
    functions: usize,
    agrees: &F,
) -> io::Result<()>
    requires { F.IsAlwaysCallable agrees.now }
{
    let mut buffer = [0u8; 65536];
    let mut page = Page::new();
    for _ in 0..u64::MAX {
        let n = input.read(&mut buffer)?;
        if n == 0 {
            break;
        }
        take_bytes_by(&buffer[..n], &mut page, counts, functions, agrees);
    }
    Ok(())
}

// Reads, works out and prints rows as `replay_program` does, by a closure that may be called on every page.
pub fn replay<F: Fn(&Page) -> bool>(
    rt: &impl Print,
    input: &mut impl Read,
    names: &[&str],
    agrees: F,
) -> io::Result<()>
    requires { F.IsAlwaysCallable agrees }
{
    let mut came = [Count { rows: 0, differ: 0 }; 32];
    read_rows_by(input, &mut came, names.len(), &agrees)?;
    print_rows(rt, names, &came)?;
    Ok(())
}
