// The elder generation's steps on an image: a collection, and an allocation placed. Each contract speaks of every heap of which
// the words are the image; after a refusal the words are free, and whoever called puts the image back, but `collect_all` leaves them.
#![tactic(auto)]

ghost use Rattle.std.specs.Prelude.{◌≡◌, true, [], ◌+◌, ◌*◌, ◌/◌, ◌≤◌, ◌<◌, leb, length};
ghost use Rattle.model.specs.Records.{whole_cells};
ghost use Rattle.model.specs.Barrier.{most};
ghost use Rattle.model.specs.Heap.{held};
ghost use Rattle.model.specs.Image.{decode};
ghost use Rattle.model.specs.Elder.{count_dropped};
ghost use Rattle.model.specs.Calls.{cells_in};
ghost use Rattle.theorems.specs.Fit.{FitBarrier, Image};
ghost use Rattle.theorems.specs.Does.{Does};
ghost use Rattle.question.specs.Question.{answer, number_answer, done_answer};
ghost use Rattle.barrier.specs.Counts.{barrier_of};
ghost use Rattle.trace.specs.Words.{members, listed};
ghost use Rattle.words.specs.Source.{cells_from};
ghost use Rattle.fields.specs.Fields.{Reads, Turns, on_old};
ghost use Rattle.elder.specs.Steps.{Listed, swept, Collects, collect_with, collect_step, count_step, source_step};

use barrier::{Way, WriteBarrier, cells};
use image::counts::MOST;
use image::formed::Formed;
use image::places;
use question::Question;
use trace::Generation;
use words::Source;

// Does it hold T allocations or more?
pub fn is_full(image: Formed<'_>) -> bool
    ensures { Reads (λ h. leb h.size.t (held h.old.slots)) image.entry.words.now result }
{
    let l = places::layout_of(image.words);
    let n = slots::held(l.slot_lengths(image.words)) as u64;
    fields::header_of(image).sizes.t <= n
}

// ---- Collection

// Lists the members of a collection; how many there are. The nursery has its own, and says why.
fn members(image: Formed<'_>, roots: &[u64], masks: &[u64], list: &mut [u64]) -> usize
    requires { 3 * (length roots.now / 3 + (decode image.words.now).size.s + (decode image.words.now).size.c) ≤ length list.old }
    ensures { Listed (cells_in roots.now) masks.now image.entry.words.now result list.new }
{
    let l = places::layout_of(image.words);
    let elder = Generation {
        own: 1,
        lens: l.slot_lengths(image.words),
        cells: l.elder_cells(image.words),
    };
    elder.list_members(roots, masks, list)
}

// The cells of what is no member counted out.
fn count_dropped(image: Formed<'_>, members: &[u64]) -> Result<WriteBarrier, Question>
    ensures { Reads (λ h. count_dropped (listed members.now) 0 h.old.slots h.old.bar) image.entry.words.now (answer barrier_of result) }
{
    let l = places::layout_of(image.words);
    let b = fields::barrier_of(image, 1);
    drops::count_dropped(
        l.slot_lengths(image.words),
        l.elder_cells(image.words),
        members,
        b,
    )
}

// What is no member leaves; this barrier stays.
fn sweep(image: &mut [u64], members: &[u64], b: WriteBarrier)
    requires image { Image image.old (decode image.old) }
    requires fit_barrier { FitBarrier (barrier_of b) }
    requires image_bound { (decode image.old).old.colls < most }
    ensures { Turns (on_old (swept (listed members.now) (barrier_of b))) image.old image.new }
{
    fields::put_barrier(image, 1, b);
    layout::keep_members(image, members);
    fields::count_old_collection(image);
}

// A collection with these members; how many they are.
fn collect_with(image: &mut [u64], members: &[u64]) -> Result<u64, Question>
    requires { Image image.old (decode image.old) }
    ensures { Collects (collect_with (listed members.now)) image.old result image.new }
{
    if MOST <= fields::header_of(Formed { words: image }).old_collections {
        return Err(Question::Bound);
    }
    let b = count_dropped(Formed { words: image }, members)?;
    sweep(image, members, b);
    Ok((members.len() / 3) as u64)
}

// A collection; how many members it visited. They are listed in the lent words.
pub fn collect(
    image: &mut [u64],
    roots: &[u64],
    masks: &[u64],
    list: &mut [u64],
) -> Result<u64, Question>
    requires image { Image image.old (decode image.old) }
    requires image_in_bounds { 3 * (length roots.now / 3 + (decode image.old).size.s + (decode image.old).size.c) ≤ length list.old }
    ensures { Does (collect_step (cells_in roots.now) masks.now) image.old (number_answer result) image.new }
{
    let count = members(Formed { words: image }, roots, masks, list);
    collect_with(image, &list[..3 * count])
}

// A collection without roots and masks has no members: nothing is traced, and every allocation leaves.
pub fn collect_all(image: &mut [u64]) -> Result<u64, Question>
    requires { Image image.old (decode image.old) }
    ensures { Collects (collect_step [] []) image.old result image.new }
{
    collect_with(image, &[])
}

// ---- Placing

// The cells counted in. The barrier is loaded only where one counts.
fn count_given(image: &mut [u64], src: &[u64]) -> Result<(), Question>
    requires image { Image image.old (decode image.old) }
    requires src_value { whole_cells src.now ≡ true }
    ensures { Does (count_step (cells_in src.now)) image.old (done_answer result) image.new }
{
    if !cells::any_crosses(src, 1) {
        return Ok(());
    }
    let b = cells::count_cells(
        src,
        1,
        Way::In,
        fields::barrier_of(Formed { words: image }, 1),
    )?;
    fields::put_barrier(image, 1, b);
    Ok(())
}

// The same, but Uninitialized cells never count.
fn count_in(image: &mut [u64], src: Source<'_>) -> Result<(), Question>
    requires { Image image.old (decode image.old) }
    ensures { Does (count_step (cells_from src.entry)) image.old (done_answer result) image.new }
{
    match src {
        Source::Blank(_) => Ok(()),
        Source::Given(cells) => count_given(image, cells.words),
    }
}

// These cells at the new base, which is answered. Room is asked for first: no sum is made with their number before.
pub fn place(image: &mut [u64], src: Source<'_>) -> Result<u64, Question>
    requires { Image image.old (decode image.old) }
    ensures { Does (source_step src.entry) image.old (number_answer result) image.new }
{
    let b = layout::room_for(Formed { words: image }, src.count())?;
    count_in(image, src)?;
    layout::put(image, b, src);
    Ok(b as u64)
}
