// The elder's operations on a whole image. Each contract speaks of every heap of which the words are the image, so that one
// operation can follow another.
#![tactic(auto)]

ghost use Rattle.std.specs.Prelude.{◌≡◌, true, [], map, ◌-◌, ◌≤◌, ◌<◌, length, get_or, set, replicate};
ghost use Rattle.model.specs.Lists.{keep_if, flat, sum};
ghost use Rattle.model.specs.Res.{ok};
ghost use Rattle.model.specs.Records.{whole_cells};
ghost use Rattle.model.specs.Image.{decode};
ghost use Rattle.model.specs.Elder.{keep};
ghost use Rattle.model.specs.Collector.{holds, swap_cell, read};
ghost use Rattle.theorems.specs.Fit.{Image};
ghost use Rattle.trace.specs.Words.{pointer, listed};
ghost use Rattle.words.specs.Source.{cells_from, count_of};
ghost use Rattle.slots.specs.Slots.{ReadBy, written, move_of};
ghost use Rattle.layout.specs.Elder.{Turned, fit_answer, fit_for, fit_words};

use image::formed::Formed;
use image::places::{self, Layout};
use question::Question;
use slots::{Move, Slots};
use value::Words;
use words::Source;
use words::cells::Cell;

// The elder's cell at (base, offset), if there is one.
pub fn read_elder(image: Formed<'_>, base: u64, offset: u64) -> Option<Words>
    ensures { ReadBy (read (decode image.entry.words.now) (pointer 1 base offset)) result }
{
    let l = places::layout_of(image.words);
    let lens = l.slot_lengths(image.words);
    slots::read_old(lens, l.elder_cells(image.words), base, offset)
}

// The elder's slots in an image's words from their lengths on. `split_at_mut` lends those: nothing is known of `image[l.slots..]` once a
// struct has held it.
fn slots_of(words: &mut [u64], l: Layout) -> Slots<'_>
    requires { l.slots ≤ l.old }
    ensures same_reference { result.words.ghost_name ≡ words.entry.ghost_name }
    ensures value { (result.words.now ≡ words.old) × (result.s ≡ l.s) × (result.at ≡ l.old - l.slots) }
{
    Slots {
        words,
        s: l.s,
        at: l.old - l.slots,
    }
}

// The cell takes the place of the elder's at (base, offset).
#[tactic(auto, using(crate::proofs::Tail::tails))]
pub fn write_elder(image: &mut [u64], base: u64, offset: u64, cell: Cell<'_>)
    requires image { Image image.old (decode image.old) }
    requires offset_in_bounds { offset < length (get_or (decode image.old).old.slots base []) }
    ensures { Turned (written base offset cell.entry.words.now) image.old image.new }
{
    let l = places::layout_of(image);
    let (_, words) = image.split_at_mut(l.slots);
    slots_of(words, l).write(base as usize, offset as usize, cell);
}

// Question 7 of len cells, where c cells are the elder's in all. No sum is made with len, which may be any number.
fn fit_in(lens: &[u64], c: usize, len: usize) -> Result<usize, Question>
    requires { sum lens.now ≤ c }
    ensures { fit_answer result ≡ fit_words lens.now c len }
{
    let b = slots::held(lens);
    let Some(old) = lens.get(b) else {
        return Err(Question::Room);
    };
    let used = words::sum(lens) - *old as usize;
    if c - used < len {
        return Err(Question::Room);
    }
    Ok(b)
}

// Question 7 of len cells: the base of a new allocation, if there is room for it.
pub fn room_for(image: Formed<'_>, len: usize) -> Result<usize, Question>
    ensures { fit_answer result ≡ fit_for len (decode image.entry.words.now) }
{
    let l = places::layout_of(image.words);
    fit_in(l.slot_lengths(image.words), l.c, len)
}

// These cells become the allocation at b, the base that `room_for` answered.
#[tactic(auto, using(crate::proofs::Tail::tails, crate::proofs::Room::rooms))]
pub fn put(image: &mut [u64], b: usize, src: Source<'_>)
    requires image { Image image.old (decode image.old) }
    requires b_value { ok b ≡ fit_for (count_of src) (decode image.old) }
    ensures { Turned (λ ss. set ss b (cells_from src.entry)) image.old image.new }
{
    let l = places::layout_of(image);
    let (_, words) = image.split_at_mut(l.slots);
    slots_of(words, l).place(b, src);
}

// The elder keeps the allocations whose pointers are among the members.
#[tactic(auto, using(crate::proofs::Tail::tails))]
pub fn keep_members(image: &mut [u64], members: &[u64])
    requires { Image image.old (decode image.old) }
    ensures { Turned (keep (listed members.now) 0) image.old image.new }
{
    let l = places::layout_of(image);
    let (_, words) = image.split_at_mut(l.slots);
    slots_of(words, l).pack(members);
}

// Each elder cell that is the pointer becomes (1, new, 0). Answers how many there were.
#[tactic(auto, using(crate::proofs::Tail::tails))]
pub fn swap_elder(image: &mut [u64], moved: Move) -> usize
    requires { Image image.old (decode image.old) }
    ensures turned { Turned (map (map (swap_cell (move_of moved)))) image.old image.new }
    ensures value { result ≡ length (keep_if (holds (move_of moved).0) (flat (decode image.old).old.slots)) }
{
    let l = places::layout_of(image);
    let (_, words) = image.split_at_mut(l.slots);
    slots_of(words, l).swap(moved)
}
