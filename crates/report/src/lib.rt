// The report: its numbers are taken, then both generations are collected without roots or masks, so that no allocation stays.
// The functions named `_formed` take an image that 1 and 2 were asked of, the others any words.
#![tactic(auto)]

ghost use Rattle.std.specs.Prelude.{◌≡◌, List, [], ℕ, length, take, drop};
ghost use Rattle.model.specs.Lists.{places, sum};
ghost use Rattle.model.specs.Barrier.{counts};
ghost use Rattle.model.specs.Image.{decode};
ghost use Rattle.model.specs.Collector.{statistics, report};
ghost use Rattle.model.specs.Calls.{reported, report_call};
ghost use Rattle.theorems.specs.Fit.{Image};
ghost use Rattle.fields.specs.Fields.{Reads, bar_of};
ghost use Rattle.report.specs.Numbers.{young_numbers, old_numbers, numbers, report_outcome, Fills};

use image::counts::MOST;
use image::formed::Formed;
use image::places;
use question::Question;

// References are the sum of a barrier's counts, free what is left of the cells.
#[derive(Clone, Copy, Default)]
pub struct Nursery {
    pub collections: u64,
    pub allocations: u64,
    pub cells: u64,
    pub references: u64,
    pub free: u64,
    pub promotions: u64,
}

#[derive(Clone, Copy, Default)]
pub struct Elder {
    pub collections: u64,
    pub allocations: u64,
    pub cells: u64,
    pub references: u64,
}

#[derive(Clone, Copy, Default)]
pub struct Statistics {
    pub nursery: Nursery,
    pub elder: Elder,
    pub leak: u64,
}

// The numbers in their order.
impl From<Statistics> for [u64; 11] {
    ghost from_gives = { λ s words. words ≡ numbers s };

    #[tactic(auto, unfolding(crate::specs::Numbers::numbers))]
    fn from(s: Statistics) -> [u64; 11] {
        let y = s.nursery;
        let e = s.elder;
        [
            y.collections,
            y.allocations,
            y.cells,
            y.references,
            y.free,
            y.promotions,
            e.collections,
            e.allocations,
            e.cells,
            e.references,
            s.leak,
        ]
    }
}

// ---- The numbers

fn young_allocations(image: Formed<'_>) -> u64
    ensures { Reads (λ h. length (places 0 h.young.lens)) image.entry.words.now result }
{
    let l = places::layout_of(image.words);
    slots::held(l.young_lengths(image.words)) as u64
}

// The sum of the counts of heap `own`'s barrier: the nursery's for 0, else the elder's. An absent one has only zeros in the image.
fn references(image: Formed<'_>, own: u8) -> u64
    ensures { Reads (λ h. sum (counts (bar_of own h))) image.entry.words.now result }
{
    words::sum(fields::counts_of(image, own)) as u64
}

fn young_numbers(image: Formed<'_>) -> Nursery
    ensures { Reads (λ h. take 6 (statistics h)) image.entry.words.now (young_numbers result) }
{
    let h = fields::header_of(image);
    let collections = h.young_collections;
    let cells = h.cursor;
    let free = h.sizes.n - cells;
    let allocations = young_allocations(image);
    let references = references(image, 0);
    let promotions = h.promotions;
    Nursery {
        collections,
        allocations,
        cells,
        references,
        free,
        promotions,
    }
}

fn old_numbers(image: Formed<'_>) -> Elder
    ensures { Reads (λ h. take 4 (drop 6 (statistics h))) image.entry.words.now (old_numbers result) }
{
    let l = places::layout_of(image.words);
    let lens = l.slot_lengths(image.words);
    let collections = fields::header_of(image).old_collections;
    let allocations = slots::held(lens) as u64;
    let cells = words::sum(lens) as u64;
    let references = references(image, 1);
    Elder {
        collections,
        allocations,
        cells,
        references,
    }
}

// The leak flag is always 0.
fn take_numbers(image: Formed<'_>) -> Statistics
    ensures { Reads (λ h. statistics h) image.entry.words.now (numbers result) }
{
    let nursery = young_numbers(image);
    let elder = old_numbers(image);
    Statistics {
        nursery,
        elder,
        leak: 0,
    }
}

// ---- The report

// The nursery's counter is asked first, then the elder's, then the counts.
pub fn report_formed(image: &mut [u64]) -> Result<Statistics, Question>
    requires { Image image.old (decode image.old) }
    ensures { reported image.old (report (decode image.old)) ≡ report_outcome result image.new }
{
    let s = take_numbers(Formed { words: image });
    let collections = s.nursery.collections;
    if MOST <= collections {
        return Err(Question::Bound);
    }
    elder::collect_all(image)?;
    fields::empty_nursery(image, 0);
    Ok(s)
}

pub fn report(image: &mut [u64]) -> Result<Statistics, Question>
    ensures { report_call image.old ≡ report_outcome result image.new }
{
    image::check(image)?;
    report_formed(image)
}

// ---- Into a record that the caller lends

// Document 01 names the form: the report goes into a record that the caller lends. A refusal leaves the record as it was.
#[tactic(auto, using(crate::proofs::Filling::lending))]
pub fn report_into_formed(image: &mut [u64], lent: &mut Statistics) -> Result<(), Question>
    requires { Image image.old (decode image.old) }
    ensures { Fills (reported image.old (report (decode image.old))) lent.old result lent.new image.new }
{
    *lent = report_formed(image)?;
    Ok(())
}

#[tactic(auto, using(crate::proofs::Filling::lending))]
pub fn report_into(image: &mut [u64], lent: &mut Statistics) -> Result<(), Question>
    ensures { Fills (report_call image.old) lent.old result lent.new image.new }
{
    *lent = report(image)?;
    Ok(())
}

// `report_formed` through a record that is lent: what the program runs. The two are two as all doors are: for C an owner's image is asked nothing.
#[tactic(auto, using(crate::proofs::Filling::lending))]
pub fn report_lent_formed(image: &mut [u64]) -> Result<Statistics, Question>
    requires { Image image.old (decode image.old) }
    ensures { reported image.old (report (decode image.old)) ≡ report_outcome result image.new }
{
    let mut s = Statistics::default();
    report_into_formed(image, &mut s)?;
    Ok(s)
}

// `report` through a record that is lent: what runs for C.
#[tactic(auto, using(crate::proofs::Filling::lending))]
pub fn report_lent(image: &mut [u64]) -> Result<Statistics, Question>
    ensures { report_call image.old ≡ report_outcome result image.new }
{
    let mut s = Statistics::default();
    report_into(image, &mut s)?;
    Ok(s)
}
