// Alloc: the nursery, its collection with the moves that it makes, and the change of moved pointers. `alloc` takes any words,
// `alloc_formed` an image that 1 and 2 were asked of. Image, roots, scratch and amount stay four parameters: the C interface hands them
// over like this.
#![tactic(auto)]

mod saved;

ghost use Rattle.std.specs.Prelude.{Ok, ◌≡◌, true, false, List, ℕ, ◌+◌, ◌-◌, ◌*◌, ◌/◌, ◌≤◌, ◌<◌, length};
ghost use Rattle.std.specs.Int.{w64};
ghost use Rattle.std.proofs.Common.{of_z};
ghost use Rattle.model.specs.Records.{cell_words};
ghost use Rattle.model.specs.Image.{decode};
ghost use Rattle.model.specs.Collector.{alloc, collect_and_alloc};
ghost use Rattle.model.specs.Calls.{cells_in, roots_good, scratch_length, allocated, allocs, call};
ghost use Rattle.theorems.specs.Doors.{on_formed};
ghost use Rattle.theorems.specs.Fit.{Image};
ghost use Rattle.theorems.specs.Does.{Does};
ghost use Rattle.theorems.specs.Apart.{swap_roots};
ghost use Rattle.question.specs.Question.{done_answer};
ghost use Rattle.pointers.specs.Steps.{changes_step};
ghost use Rattle.cycle.specs.Outcomes.{Ready};
ghost use Rattle.cycle.specs.declared.turns.Request.TheVariants.{New};
ghost use Rattle.collector.specs.Alloc.{Worked, moves_at, gave_outcome, alloc_outcome};

use cycle::scratch::Parts;
pub use cycle::turns::Work;
use cycle::turns::{Gave, Request};
use image::formed::Formed;
use question::Question;
use value::Pointer;

#[derive(Clone, Copy)]
pub struct Allocation {
    pub pointer: Pointer,
    pub nursery: Work,
    pub elder: Work,
}

// The words of scratch that 4 asks for.
fn scratch_for(image: Formed<'_>, roots: &[u64]) -> usize
    requires { roots_good roots.now ≡ true }
    ensures { result ≡ scratch_length (decode image.entry.words.now).size (length roots.now / 3) }
{
    let z = fields::header_of(image).sizes;
    z.scratch_length(roots.len() / 3)
}

// An amount that stays young: nothing is collected.
fn stay_young(image: &mut [u64], amount: u64) -> Allocation
    requires image { Image image.old (decode image.old) }
    requires amount_nonzero { (0 < amount) × (amount < (decode image.old).size.n - (decode image.old).young.cursor) }
    ensures { (roots : List ℕ) → roots_good roots ≡ true → allocated image.old roots (alloc (decode image.old) (cells_in roots) amount) ≡ alloc_outcome (Ok result) image.new roots }
{
    let base = fields::bump(image, amount);
    let pointer = Pointer {
        heap: 0,
        base,
        offset: 0,
    };
    Allocation {
        pointer,
        nursery: Work::default(),
        elder: Work::default(),
    }
}

// The answer of a call that collected the nursery.
fn collected(g: Gave) -> Allocation
    ensures { (v roots : List ℕ) → alloc_outcome (Ok result) v roots ≡ gave_outcome g v roots }
{
    let pointer = Pointer {
        heap: g.heap,
        base: g.base,
        offset: 0,
    };
    let nursery = Work {
        collections: 1,
        visits: g.visits,
    };
    Allocation {
        pointer,
        nursery,
        elder: g.elder,
    }
}

// Moved pointers are changed in both generations.
#[tactic(auto, unfolding(model::specs::Calls::scratch_length))]
fn change_heap(
    image: &mut [u64],
    roots: &[u64],
    scratch: &[u64],
    moved: usize,
) -> Result<(), Question>
    requires image { Image image.old (decode image.old) }
    requires roots_in_bounds { scratch_length (decode image.old).size (length roots.now / 3) ≤ length scratch.now }
    requires moved_in_bounds { moved ≤ length roots.now / 3 + 2 * (decode image.old).size.n }
    ensures { Does (changes_step (moves_at (decode image.old).size (length roots.now / 3) moved scratch.now)) image.old (done_answer result) image.new }
{
    let p = Parts::of(Formed { words: image }, roots);
    pointers::change_all(image, p.members(scratch, moved), p.bases(scratch, moved))
}

// The cycle, then the change.
fn collect_and_change(
    image: &mut [u64],
    roots: &[u64],
    scratch: &mut [u64],
    amount: u64,
) -> Result<Gave, Question>
    requires { Ready image.old roots.now scratch.old (New amount) 2 false }
    ensures { Worked amount image.old roots.now scratch.old result image.new scratch.new }
{
    let masks = fields::barrier_of(Formed { words: image }, 0).masks();
    let g = cycle::collect_and_push_allocation(
        image,
        roots,
        &masks.places[..masks.count],
        scratch,
        Request::New(amount),
        2,
        false,
    )?;
    change_heap(image, roots, scratch, g.moved)?;
    Ok(g)
}

// The roots change last, when nothing can refuse any more.
#[tactic(auto, unfolding(model::specs::Calls::scratch_length))]
fn change_roots(image: Formed<'_>, roots: &mut [u64], scratch: &[u64], moved: usize)
    requires roots_value { roots_good roots.old ≡ true }
    requires roots_in_bounds { scratch_length (decode image.words.now).size (length roots.old / 3) ≤ length scratch.now }
    requires moved_in_bounds { moved ≤ length roots.old / 3 + 2 * (decode image.words.now).size.n }
    ensures { roots.new ≡ cell_words (swap_roots (moves_at (decode image.entry.words.now).size (length roots.old / 3) moved scratch.now) (cells_in roots.old)) }
{
    let p = Parts::of(image, roots);
    pointers::change_roots(roots, p.members(scratch, moved), p.bases(scratch, moved));
}

// An amount that does not fit. A refusal at any depth puts the image back.
#[tactic(auto, using(cycle::proofs::Lending::lengths), unfolding(model::specs::Calls::scratch_length))]
fn collect_for(
    image: &mut [u64],
    roots: &mut [u64],
    scratch: &mut [u64],
    amount: u64,
) -> Result<Allocation, Question>
    requires image { Image image.old (decode image.old) }
    requires roots_value { roots_good roots.old ≡ true }
    requires roots_in_bounds { scratch_length (decode image.old).size (length roots.old / 3) ≤ length scratch.old }
    requires amount_nonzero { 0 < amount }
    ensures { allocated image.old roots.old (collect_and_alloc (decode image.old) (cells_in roots.old) amount) ≡ alloc_outcome result image.new roots.new }
{
    let used = saved::save(Formed { words: image }, scratch);
    match collect_and_change(image, roots, scratch, amount) {
        Ok(g) => {
            change_roots(Formed { words: image }, roots, scratch, g.moved);
            Ok(collected(g))
        }
        Err(q) => {
            saved::restore(image, scratch, used);
            Err(q)
        }
    }
}

pub fn alloc_formed(
    image: &mut [u64],
    roots: &mut [u64],
    scratch: &mut [u64],
    amount: i64,
) -> Result<Allocation, Question>
    requires { Image image.old (decode image.old) }
    ensures { on_formed (allocs roots.old (length scratch.old) (of_z w64 amount)) image.old ≡ alloc_outcome result image.new roots.new }
{
    if !image::roots_ok(roots) {
        return Err(Question::Cells);
    }
    if scratch.len() < scratch_for(Formed { words: image }, roots) {
        return Err(Question::Scratch);
    }
    if amount <= 0 {
        return Err(Question::Amount);
    }
    let cells = amount as u64;
    if nursery::fits(Formed { words: image }, cells) {
        return Ok(stay_young(image, cells));
    }
    collect_for(image, roots, scratch, cells)
}

pub fn alloc(
    image: &mut [u64],
    roots: &mut [u64],
    scratch: &mut [u64],
    amount: i64,
) -> Result<Allocation, Question>
    ensures { call (allocs roots.old (length scratch.old) (of_z w64 amount)) image.old ≡ alloc_outcome result image.new roots.new }
{
    image::check(image)?;
    alloc_formed(image, roots, scratch, amount)
}
