// Typed access to a formed image: its header, both write barriers and the nursery. Each contract speaks of every heap of which
// the words are the image, so that one operation can follow another.
#![tactic(auto)]

ghost use Rattle.std.specs.Prelude.{◌≡◌, true, [], ◌∷◌, ◌+◌, ◌-◌, ◌*◌, ◌<◌, ◌≤◌, length, get_or};
ghost use Rattle.model.specs.Records.{blank, cell_words, whole_cells};
ghost use Rattle.model.specs.Barrier.{absent, most, counts};
ghost use Rattle.model.specs.Image.{decode};
ghost use Rattle.model.specs.Nursery.{bump, emptied};
ghost use Rattle.theorems.specs.Fit.{FitBarrier, Image};
ghost use Rattle.barrier.specs.Counts.{barrier_of};
ghost use Rattle.image.specs.Places.{model_sizes};
ghost use Rattle.fields.specs.Fields.{Reads, Turns, on_young, on_old, with_bar, bar_of, on_bar, is_present, with_count, flag_at, counts_at, with_cell, restarted, collected_once, cell_in, words_of};

use barrier::WriteBarrier;
use image::formed::Formed;
use image::sizes::Sizes;
use image::{layout, places};
use std::ops::Range;
use value::Words;
use words::cells::Cell;

// The sizes, the nursery's cursor and counters, and the elder's counter.
#[derive(Clone, Copy)]
pub struct Header {
    pub sizes: Sizes,
    pub cursor: u64,
    pub young_collections: u64,
    pub promotions: u64,
    pub old_collections: u64,
}

#[tactic(auto, using(crate::proofs::Parts::in_image))]
pub fn header_of(image: Formed<'_>) -> Header
    ensures sizes { Reads (λ h. h.size) image.entry.words.now (model_sizes result.sizes) }
    ensures cursor { Reads (λ h. h.young.cursor) image.entry.words.now result.cursor }
    ensures young_collections { Reads (λ h. h.young.colls) image.entry.words.now result.young_collections }
    ensures promotions { Reads (λ h. h.young.proms) image.entry.words.now result.promotions }
    ensures old_collections { Reads (λ h. h.old.colls) image.entry.words.now result.old_collections }
{
    Header {
        sizes: Sizes::of(image.words),
        cursor: image.words[layout::CURSOR],
        young_collections: image.words[layout::YOUNG_COLLECTIONS],
        promotions: image.words[layout::PROMOTIONS],
        old_collections: image.words[layout::OLD_COLLECTIONS],
    }
}

// Where a barrier's flag and its counts stand.
#[derive(Drop)]
struct Places {
    flag: usize,
    counts: Range<usize>,
}

// The nursery's for 0, else the elder's. A heap's number is any u8: a narrower type would ask more of callers.
fn places_of(own: u8) -> Places
    ensures flag { (result.flag ≡ flag_at own) × (result.flag < 10) }
    ensures counts { (result.counts.start ≡ counts_at own) × (result.counts.end ≡ result.counts.start + 256) × (result.counts.end ≤ 522) }
{
    if own == 0 {
        Places {
            flag: layout::YOUNG_PRESENT,
            counts: layout::YOUNG_COUNTS..layout::OLD_COUNTS,
        }
    } else {
        Places {
            flag: layout::OLD_PRESENT,
            counts: layout::OLD_COUNTS..layout::LENGTHS,
        }
    }
}

// The counts of heap `own`'s barrier. Those of an absent one are zero.
pub fn counts_of<'a>(image: Formed<'a>, own: u8) -> &'a [u64]
    ensures { Reads (λ h. counts (bar_of own h)) image.entry.words.now result.now }
{
    &image.words[places_of(own).counts]
}

// The barrier of heap `own`.
#[tactic(auto, using(crate::proofs::Parts::in_image))]
pub fn barrier_of(image: Formed<'_>, own: u8) -> WriteBarrier
    ensures { Reads (λ h. bar_of own h) image.entry.words.now (barrier_of result) }
{
    let p = places_of(own);
    barrier::words::load(image.words[p.flag], &image.words[p.counts])
}

pub fn put_barrier(image: &mut [u64], own: u8, b: WriteBarrier)
    requires image { Image image.old (decode image.old) }
    requires fit_barrier { FitBarrier (barrier_of b) }
    ensures { Turns (λ h. on_bar own (barrier_of b) h) image.old image.new }
{
    let p = places_of(own);
    barrier::words::store(b, &mut image[p.counts]);
    image[p.flag] = barrier::words::flag_word(b);
}

#[tactic(auto, using(crate::proofs::Parts::in_image))]
pub fn is_present(image: Formed<'_>, own: u8) -> bool
    ensures { Reads (λ h. is_present (bar_of own h)) image.entry.words.now result }
{
    image.words[places_of(own).flag] == 1
}

// An absent barrier's count words are zero, so that the others are right when it becomes present.
pub fn put_count(image: &mut [u64], own: u8, k: usize, n: u64)
    requires image { Image image.old (decode image.old) }
    requires k_bound { (k < 256) × (n ≤ most) }
    ensures { Turns (λ h. on_bar own (with_count k n (bar_of own h)) h) image.old image.new }
{
    let p = places_of(own);
    image[p.counts.start + k] = n;
    image[p.flag] = 1;
}

pub fn young_cell(image: Formed<'_>, i: usize) -> Words
    requires { i < (decode image.words.now).size.n }
    ensures { Reads (λ h. cell_words (get_or h.young.cells i blank ∷ [])) image.entry.words.now (words_of result) }
{
    let l = places::layout_of(image.words);
    Words::at(l.young_cells(image.words), i)
}

pub fn put_young_cell(image: &mut [u64], i: usize, cell: Cell<'_>)
    requires image { Image image.old (decode image.old) }
    requires i_bound { i < (decode image.old).size.n }
    ensures { Turns (on_young (with_cell i (cell_in cell.entry.words.now))) image.old image.new }
{
    let l = places::layout_of(image);
    words::copy_words(&mut image[l.young..l.old], 3 * i, cell.words);
}

// One more allocation, at the cursor; its base.
pub fn bump(image: &mut [u64], amount: u64) -> u64
    requires image { Image image.old (decode image.old) }
    requires amount_nonzero { (0 < amount) × (amount < (decode image.old).size.n - (decode image.old).young.cursor) }
    ensures turns { Turns (on_young (λ y. bump y amount)) image.old image.new }
    ensures base { Reads (λ h. h.young.cursor) image.old result }
{
    let at = header_of(Formed { words: image }).cursor;
    image[layout::LENGTHS + at as usize] = amount;
    image[layout::CURSOR] = at + amount;
    at
}

// No allocation, with these counters.
fn restart(image: &mut [u64], collections: u64, promotions: u64)
    requires image { Image image.old (decode image.old) }
    requires collections_le_most { (collections ≤ most) × (promotions ≤ most) }
    ensures { Turns (on_young (restarted collections promotions)) image.old image.new }
{
    let l = places::layout_of(image);
    words::zero_from(&mut image[l.lens..l.slots], 0);
    image[layout::CURSOR] = 0;
    image[layout::YOUNG_COLLECTIONS] = collections;
    image[layout::PROMOTIONS] = promotions;
}

// An absent barrier has only zero counts already, so nothing is stored.
fn clear_young_barrier(image: &mut [u64])
    requires { Image image.old (decode image.old) }
    ensures { Turns (on_young (with_bar absent)) image.old image.new }
{
    if is_present(Formed { words: image }, 0) {
        let b = barrier_of(Formed { words: image }, 0);
        put_barrier(image, 0, b.clear());
    }
}

// The nursery after a collection of so many members.
pub fn empty_nursery(image: &mut [u64], visits: u64)
    requires image { Image image.old (decode image.old) }
    requires image_bound { ((decode image.old).young.colls < most) × ((decode image.old).young.proms + visits ≤ most) }
    ensures { Turns (on_young (λ y. emptied y visits)) image.old image.new }
{
    let h = header_of(Formed { words: image });
    let collections = h.young_collections + 1;
    let moved = h.promotions + visits;
    clear_young_barrier(image);
    restart(image, collections, moved);
}

#[tactic(auto, using(crate::proofs::Parts::in_image))]
pub fn count_old_collection(image: &mut [u64])
    requires image { Image image.old (decode image.old) }
    requires image_bound { (decode image.old).old.colls < most }
    ensures { Turns (on_old collected_once) image.old image.new }
{
    image[layout::OLD_COLLECTIONS] = header_of(Formed { words: image }).old_collections + 1;
}
