// `alloc_or_collect` and `collect_and_push_allocation`, which call each other. `left` is the number of generations left, 2 or 1: the
// nursery and the elder, or the elder alone; it and `collected` make the falling number. `masks` are the elder's. The nursery as it
// was before the call is saved in front of scratch, and is what the moves copy from.
//
// The number and the flag are the form that document 01 names. The slices are the caller's own, from the C interface on: a struct of
// them would be made anew for each call, as image and scratch are read and written between two calls.
#![tactic(auto)]

pub mod scratch;
pub mod turns;

ghost use Rattle.std.specs.Prelude.{◌≡◌, false};
ghost use Rattle.model.specs.Image.{decode};
ghost use Rattle.model.specs.Calls.{cells_in};
ghost use Rattle.cycle.specs.Scratch.{parts_in};
ghost use Rattle.cycle.specs.Turns.{turn, push_turn};
ghost use Rattle.cycle.specs.Outcomes.{Ready, Ran};

use image::formed::Formed;
use question::Question;
use turns::{Gave, Request, Work};

#[cycle(alloc_or_collect_collect_and_push_allocation)]
pub fn alloc_or_collect(
    image: &mut [u64],
    roots: &[u64],
    masks: &[u64],
    scratch: &mut [u64],
    what: Request,
    left: u64,
    collected: bool,
) -> Result<Gave, Question>
    requires { Ready image.old roots.now scratch.old what left collected }
    ensures { Ran (turn (parts_in (decode image.old).size scratch.old) (cells_in roots.now) masks.now what left collected) left collected image.old roots.now scratch.old result image.new scratch.new }
{
    if turns::must_collect(Formed { words: image }, what, left, collected) {
        return collect_and_push_allocation(image, roots, masks, scratch, what, left, collected);
    }
    turns::give_in(image, scratch, what, left)
}

#[cycle(alloc_or_collect_collect_and_push_allocation)]
pub fn collect_and_push_allocation(
    image: &mut [u64],
    roots: &[u64],
    masks: &[u64],
    scratch: &mut [u64],
    what: Request,
    left: u64,
    collected: bool,
) -> Result<Gave, Question>
    requires ready { Ready image.old roots.now scratch.old what left collected }
    requires collected_value { left ≡ 1 → collected ≡ false }
    ensures { Ran (push_turn (parts_in (decode image.old).size scratch.old) (cells_in roots.now) masks.now what left collected) left collected image.old roots.now scratch.old result image.new scratch.new }
{
    if collected {
        return alloc_or_collect(image, roots, masks, scratch, what, 1, true);
    }
    if left == 1 {
        let visits = scratch::sweep(image, roots, masks, scratch)?;
        let g = alloc_or_collect(image, roots, masks, scratch, what, 1, true)?;
        return Ok(g.also_swept(visits));
    }
    let c = scratch::collect_nursery(image, roots, scratch)?;
    let mut tally = Work::default();
    // By number: the words that the survivors stand in are written between two of them.
    for i in 0..c.survivors {
        let base = scratch::survivor(scratch, image.len(), i);
        let g = alloc_or_collect(image, roots, masks, scratch, Request::Move(base), 1, false)?;
        tally = turns::note(Formed { words: image }, roots, scratch, i, tally, g);
    }
    let g = alloc_or_collect(image, roots, masks, scratch, what, 2, true)?;
    Ok(g.finished(c, tally))
}
