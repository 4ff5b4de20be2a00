// The nursery's steps on an image: does an amount fit, a collection, the part that a promoted allocation occupies.
#![tactic(auto)]

ghost use Rattle.std.specs.Prelude.{◌≡◌, ◌+◌, ◌-◌, ◌*◌, ◌/◌, ◌≤◌, ◌<◌, ltb, length, get_or, take, drop};
ghost use Rattle.model.specs.Image.{decode};
ghost use Rattle.model.specs.Nursery.{all_allocated};
ghost use Rattle.model.specs.Calls.{cells_in};
ghost use Rattle.theorems.specs.Fit.{Image};
ghost use Rattle.theorems.specs.Does.{Does};
ghost use Rattle.trace.specs.Words.{listed};
ghost use Rattle.fields.specs.Fields.{Reads};
ghost use Rattle.nursery.specs.Steps.{Listed, collected_answer, collect_step};

use image::counts::MOST;
use image::formed::Formed;
use image::places;
use question::Question;
use trace::Generation;

// How many members a collection visited, and how many of them survive.
#[derive(Clone, Copy)]
pub struct Collected {
    pub visits: u64,
    pub survivors: usize,
}

// Is the amount below N − cursor?
pub fn fits(image: Formed<'_>, amount: u64) -> bool
    ensures { Reads (λ h. ltb amount (h.size.n - h.young.cursor)) image.entry.words.now result }
{
    let h = fields::header_of(image);
    amount < h.sizes.n - h.cursor
}

// Lists the members of a collection; how many there are. Not one function for both heaps: whatever stands in here and in the contract,
// other than the call, would be chosen by the heap's number.
fn members(image: Formed<'_>, roots: &[u64], masks: &[u64], list: &mut [u64]) -> usize
    requires { 3 * (length roots.now / 3 + 2 * (decode image.words.now).size.n) ≤ length list.old }
    ensures { Listed (cells_in roots.now) masks.now image.entry.words.now result list.new }
{
    let l = places::layout_of(image.words);
    let nursery = Generation {
        own: 0,
        lens: l.young_lengths(image.words),
        cells: l.young_cells(image.words),
    };
    nursery.list_members(roots, masks, list)
}

// Question 6 of these members.
fn all_allocated(image: Formed<'_>, members: &[u64]) -> bool
    ensures { Reads (λ h. all_allocated h.young (listed members.now)) image.entry.words.now result }
{
    let l = places::layout_of(image.words);
    survivors::all_allocated(l.young_lengths(image.words), members)
}

// A collection. The survivors stand in the lent words, sorted.
pub fn collect(
    image: &mut [u64],
    roots: &[u64],
    masks: &[u64],
    list: &mut [u64],
) -> Result<Collected, Question>
    requires image { Image image.old (decode image.old) }
    requires image_in_bounds { 3 * (length roots.now / 3 + 2 * (decode image.old).size.n) ≤ length list.old }
    ensures { Does (collect_step (cells_in roots.now) masks.now) image.old (collected_answer result list.new) image.new }
{
    let h = fields::header_of(Formed { words: image });
    if MOST <= h.young_collections {
        return Err(Question::Bound);
    }
    let entered = members(Formed { words: image }, roots, masks, list);
    let survivors = survivors::survivors(&mut list[..3 * entered]);
    if !all_allocated(Formed { words: image }, &list[..3 * survivors]) {
        return Err(Question::Allocation);
    }
    let visits = entered as u64;
    if MOST - h.promotions < visits {
        return Err(Question::Bound);
    }
    fields::empty_nursery(image, visits);
    Ok(Collected { visits, survivors })
}

// The part of the nursery's cells that the allocation at base occupies.
pub fn promoted<'a>(lens: &[u64], cells: &'a [u64], base: usize) -> &'a [u64]
    requires base_in_bounds { base < length lens.now }
    requires base_in_bounds_2 { 3 * (base + get_or lens.now base 0) ≤ length cells.now }
    ensures { result.now ≡ take (3 * get_or lens.now base 0) (drop (3 * base) cells.now) }
{
    let from = 3 * base;
    let end = from + 3 * lens[base] as usize;
    &cells[from..end]
}
