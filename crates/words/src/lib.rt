// Words of one slice moved, copied, zeroed and replaced, in place, and summed. Each contract is one equation over the whole
// slice, so that it also says which words stay.
#![tactic(auto)]

pub mod cells;

ghost use Rattle.std.specs.Prelude.{◌≡◌, ◌++◌, ◌+◌, ◌-◌, ◌^◌, ◌≤◌, ◌<◌, length, take, drop, replicate};
ghost use Rattle.std.proofs.Math.Seq.{paste};
ghost use Rattle.model.specs.Lists.{sum};
ghost use Rattle.words.specs.Words.{padded};
ghost use Rattle.words.specs.Filling.{filled};
ghost use Rattle.words.specs.Source.{filling, count_of};

use cells::Cells;

// Loops, since of the C library the heap for C asks no more than memcpy and memset: `copy_within` and `copy_from_slice` call memmove,
// and so does a loop over places a known number of words apart.

// Moves the n words from src on left to dst, the first one first.
#[inline(never)]
fn move_left(w: &mut [u64], dst: usize, src: usize, n: usize)
    requires { (dst ≤ src) × (src + n ≤ length w.old) }
    ensures { w.new ≡ paste w.old dst (drop src w.old) n }
{
    for i in 0..n {
        w[dst + i] = w[src + i];
    }
}

// Moves the n words from src on right to dst, the last one first.
fn move_right(w: &mut [u64], dst: usize, src: usize, n: usize)
    requires { (src ≤ dst) × (dst + n ≤ length w.old) }
    ensures { w.new ≡ paste w.old dst (drop src w.old) n }
{
    for i in (0..n).rev() {
        w[dst + i] = w[src + i];
    }
}

// Moves the n words from src on to dst; the two places may overlap.
pub fn move_words(w: &mut [u64], dst: usize, src: usize, n: usize)
    requires { (dst + n ≤ length w.old) × (src + n ≤ length w.old) }
    ensures { w.new ≡ paste w.old dst (drop src w.old) n }
{
    if dst <= src {
        move_left(w, dst, src, n);
    } else {
        move_right(w, dst, src, n);
    }
}

// Copies src into w from at on.
pub fn copy_words(w: &mut [u64], at: usize, src: &[u64])
    requires { at + length src.now ≤ length w.old }
    ensures { w.new ≡ paste w.old at src.now (length src.now) }
{
    for i in 0..src.len() {
        w[at + i] = src[i];
    }
}

// Makes the n words from at on 0.
pub fn zero_words(w: &mut [u64], at: usize, n: usize)
    requires { at + n ≤ length w.old }
    ensures { w.new ≡ paste w.old at (replicate n 0) n }
{
    w[at..at + n].fill(0);
}

// Makes every word from at on 0.
#[tactic(auto, using(crate::proofs::Laws::laws))]
pub fn zero_from(w: &mut [u64], at: usize)
    requires { at ≤ length w.old }
    ensures { w.new ≡ padded (take at w.old) (length w.old) }
{
    w[at..].fill(0);
}

// Words in use in the front of a slice, and among them old ones, which are to be replaced: where those stand, how many they are, and
// how many are in use in all. What lies behind is 0.
#[derive(Clone, Copy)]
pub struct Hole {
    pub at: usize,
    pub old: usize,
    pub used: usize,
    ghost inside: { at + old ≤ used },
}

// Makes place for new words in the stead of the old ones. Only words that were in use are zeroed, so that the cost doesn't grow with
// the slice.
#[tactic(auto, using(crate::proofs::Laws::laws))]
fn open_place(w: &mut [u64], hole: Hole, new: usize)
    requires bound { (hole.used ≤ length w.old) × (hole.used - hole.old + new ≤ length w.old) }
    requires w_value { drop hole.used w.old ≡ replicate (length w.old - hole.used) 0 }
    ensures { w.new ≡ padded (take (hole.at + new) w.old ++ take (hole.used - (hole.at + hole.old)) (drop (hole.at + hole.old) w.old)) (length w.old) }
{
    let behind = hole.at + hole.old;
    let after = hole.at + new;
    let rest = hole.used - behind;
    move_words(w, after, behind, rest);
    let end = after + rest;
    zero_words(w, end, hole.used.saturating_sub(end));
}

// New words: so many zeros, or these.
#[derive(Clone, Copy)]
pub enum Filling<'a> {
    Zeros(usize),
    Given(&'a [u64]),
}

impl Filling<'_> {
    fn len(self) -> usize
        ensures { result ≡ length (filled self.entry) }
    {
        match self {
            Filling::Zeros(n) => n,
            Filling::Given(words) => words.len(),
        }
    }
}

// The old words are replaced by new ones.
#[tactic(auto, using(crate::proofs::Laws::laws))]
pub fn splice(w: &mut [u64], hole: Hole, new: Filling<'_>)
    requires bound { (hole.used ≤ length w.old) × (hole.used - hole.old + length (filled new) ≤ length w.old) }
    requires w_value { drop hole.used w.old ≡ replicate (length w.old - hole.used) 0 }
    ensures { w.new ≡ padded (take hole.at w.old ++ (filled new.entry ++ take (hole.used - (hole.at + hole.old)) (drop (hole.at + hole.old) w.old))) (length w.old) }
{
    open_place(w, hole, new.len());
    match new {
        Filling::Zeros(n) => zero_words(w, hole.at, n),
        Filling::Given(words) => copy_words(w, hole.at, words),
    }
}

// Cells that come to a place: so many Uninitialized ones, whose words are 0, or these.
#[derive(Clone, Copy)]
pub enum Source<'a> {
    Blank(usize),
    Given(Cells<'a>),
}

impl<'a> Source<'a> {
    // How many cells they are.
    pub fn count(self) -> usize
        ensures { result ≡ count_of self.entry }
    {
        match self {
            Source::Blank(n) => n,
            Source::Given(cells) => cells.words.len() / 3,
        }
    }

    // Their words.
    pub fn words(self) -> Filling<'a>
        requires { length (filling self) < 2 ^ 64 }
        ensures { filled result ≡ filling self.entry }
    {
        match self {
            Source::Blank(n) => Filling::Zeros(3 * n),
            Source::Given(cells) => Filling::Given(cells.words),
        }
    }
}

// The sum of words. Every access to the elder makes it: it only adds, so that it can be done many at a time.
pub fn sum(w: &[u64]) -> usize
    requires { sum w.now < 2 ^ 64 }
    ensures { result ≡ sum w.now }
{
    w.iter().sum::<u64>() as usize
}
