// Moved pointers are changed in an image, each in nursery cells below the cursor and in elder cells, both barriers counting each
// change; and in roots. After a refusal the image's words are free, and whoever called puts the image back.
#![tactic(auto)]

ghost use Rattle.std.specs.Prelude.{◌≡◌, true, ◌+◌, ◌*◌, ◌≤◌, ◌<◌, length, take};
ghost use Rattle.model.specs.Lists.{keep_if};
ghost use Rattle.model.specs.Records.{cell_words, whole_cells};
ghost use Rattle.model.specs.Image.{decode};
ghost use Rattle.model.specs.Collector.{holds};
ghost use Rattle.model.specs.Calls.{cells_in};
ghost use Rattle.theorems.specs.Fit.{Image};
ghost use Rattle.theorems.specs.Does.{Does};
ghost use Rattle.theorems.specs.Apart.{swap_roots};
ghost use Rattle.question.specs.Question.{done_answer};
ghost use Rattle.trace.specs.Words.{ptr_of};
ghost use Rattle.slots.specs.Slots.{move_of};
ghost use Rattle.fields.specs.Fields.{Turns, on_young};
ghost use Rattle.pointers.specs.Steps.{swapped_young, count_moved, change_step, changes_step, member_move, moves_of};

use image::formed::Formed;
use image::places;
use question::Question;
use slots::Move;
use trace::Member;

// ---- One pointer: (heap, base, offset) becomes (1, new, 0)

// In nursery cells below the cursor; how many held it.
#[tactic(auto, using(crate::proofs::Young::ends))]
fn swap_young(image: &mut [u64], moved: Move) -> usize
    requires { Image image.old (decode image.old) }
    ensures turns { Turns (on_young (swapped_young (move_of moved))) image.old image.new }
    ensures value { result ≡ length (keep_if (holds (move_of moved).0) (take (decode image.old).young.cursor (decode image.old).young.cells)) }
{
    let n = fields::header_of(Formed { words: image }).cursor as usize;
    let l = places::layout_of(image);
    let from = l.young;
    let end = from + 3 * n;
    slots::swap_cells(&mut image[from..end], moved)
}

// So many such cells counted on the barrier of heap `own`.
fn count_all(image: &mut [u64], own: u8, k: usize, moved: Move) -> Result<(), Question>
    requires { Image image.old (decode image.old) }
    ensures { Does (count_moved own k (move_of moved)) image.old (done_answer result) image.new }
{
    let b = changes::count_changes(
        k,
        own,
        moved,
        fields::barrier_of(Formed { words: image }, own),
    )?;
    fields::put_barrier(image, own, b);
    Ok(())
}

// The same, but without one the barrier is not loaded. Two functions: what `?` binds, 1 KB each time, is zeroed where its function begins.
fn count(image: &mut [u64], own: u8, k: usize, moved: Move) -> Result<(), Question>
    requires { Image image.old (decode image.old) }
    ensures { Does (count_moved own k (move_of moved)) image.old (done_answer result) image.new }
{
    if k == 0 {
        return Ok(());
    }
    count_all(image, own, k, moved)
}

// In both generations, the nursery first.
pub fn change(image: &mut [u64], moved: Move) -> Result<(), Question>
    requires { Image image.old (decode image.old) }
    ensures { Does (change_step (move_of moved)) image.old (done_answer result) image.new }
{
    let young = swap_young(image, moved);
    count(image, 0, young, moved)?;
    let old = layout::swap_elder(image, moved);
    count(image, 1, old, moved)
}

// ---- All of them: the members are the nursery's, three words each, and each has its new base beside it. Not an iterator of moves that is
// handed in: a function that answers `impl Iterator` gets no proof, and a type with a `next` of its own is longer than both loops.

// A member's move.
fn member_move(m: Member, new: u64) -> Move
    ensures { move_of result ≡ member_move (ptr_of m) new }
{
    Move {
        heap: 0,
        base: m.base,
        offset: m.offset,
        new,
    }
}

// In both generations, pointer by pointer; the first refusal ends it.
pub fn change_all(image: &mut [u64], members: &[u64], bases: &[u64]) -> Result<(), Question>
    requires { Image image.old (decode image.old) }
    ensures { Does (changes_step (moves_of members.now bases.now)) image.old (done_answer result) image.new }
{
    let (entries, _) = members.as_chunks::<3>();
    for (entry, base) in entries.iter().zip(bases) {
        change(image, member_move(Member::from(*entry), *base))?;
    }
    Ok(())
}

// In roots.
pub fn change_roots(roots: &mut [u64], members: &[u64], bases: &[u64])
    requires { whole_cells roots.old ≡ true }
    ensures { roots.new ≡ cell_words (swap_roots (moves_of members.now bases.now) (cells_in roots.old)) }
{
    let (entries, _) = members.as_chunks::<3>();
    for (entry, base) in entries.iter().zip(bases) {
        slots::swap_cells(roots, member_move(Member::from(*entry), *base));
    }
}
