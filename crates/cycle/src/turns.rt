// One turn of the cycle: what is asked of a generation, and what it gave. `left` and `collected` are those of the cycle's functions, in
// the form that document 01 names.
ghost use Rattle.std.specs.Prelude.{Ok, ◌≡◌, true, false, ◌+◌, ◌-◌, ◌*◌, ◌/◌, ◌^◌, ◌≤◌, ◌<◌, length, set};
ghost use Rattle.model.specs.Image.{decode};
ghost use Rattle.theorems.specs.Fit.{Image};
ghost use Rattle.fields.specs.Fields.{Reads};
ghost use Rattle.cycle.specs.Scratch.{bases_at, old_list_at, Saved, parts_in};
ghost use Rattle.cycle.specs.Turns.{bumped, must_collect, give_in};
ghost use Rattle.cycle.specs.Outcomes.{Asked, Gives, gave_at, swept_gave, finished_gave};

use crate::scratch::{self, Parts};
use image::formed::Formed;
use nursery::Collected;
use question::Question;
use std::ops::Add;
use words::Source;

// A new array of so many cells, or the nursery's allocation at a base moved.
#[derive(Clone, Copy)]
pub enum Request {
    New(u64),
    Move(u64),
}

// A generation's collections, and their visits.
#[derive(Clone, Copy, Default)]
pub struct Work {
    pub collections: u64,
    pub visits: u64,
}

impl Add for Work {
    type Output = Work;

    ghost can_add = { λ a b. (a.collections + b.collections < 2 ^ 64) × (a.visits + b.visits < 2 ^ 64) };

    ghost add_gives = { λ a b r. (r.collections ≡ a.collections + b.collections) × (r.visits ≡ a.visits + b.visits) };

    fn add(self, more: Work) -> Work {
        Work {
            collections: self.collections + more.collections,
            visits: self.visits + more.visits,
        }
    }
}

// Where it went; how many pointers were moved for it, the nursery's visits; the elder's collections.
#[derive(Clone, Copy, Default)]
pub struct Gave {
    pub heap: u8,
    pub base: u64,
    pub moved: usize,
    pub visits: u64,
    pub elder: Work,
}

impl Gave {
    // Without a collection.
    fn at(heap: u8, base: u64) -> Gave
        ensures { result ≡ gave_at heap base }
    {
        Gave {
            heap,
            base,
            ..Gave::default()
        }
    }

    // With a collection of the elder before it, of so many visits.
    pub fn also_swept(self, visits: u64) -> Gave
        ensures { result ≡ swept_gave self visits }
    {
        let elder = Work {
            collections: 1,
            visits,
        };
        Gave { elder, ..self }
    }

    // With a collection of the nursery before it, and the elder's for its survivors.
    pub fn finished(self, c: Collected, elder: Work) -> Gave
        ensures { result ≡ finished_gave self c elder }
    {
        Gave {
            moved: c.survivors,
            visits: c.visits,
            elder,
            ..self
        }
    }
}

// Has the generation to be collected before it can give?
pub fn must_collect(image: Formed<'_>, what: Request, left: u64, collected: bool) -> bool
    ensures { Reads (must_collect what left collected) image.entry.words.now result }
{
    if left == 1 {
        return !collected && elder::is_full(image);
    }
    match what {
        Request::New(amount) => !nursery::fits(image, amount),
        Request::Move(_) => false,
    }
}

// The generation gives, where it need not be collected before. A move always goes to the elder.
pub fn give_in(
    image: &mut [u64],
    scratch: &[u64],
    what: Request,
    left: u64,
) -> Result<Gave, Question>
    requires image { Image image.old (decode image.old) }
    requires saved { Saved (decode image.old).size scratch.now }
    requires asked { Asked what (decode image.old).size scratch.now }
    requires image_value { must_collect what left true (decode image.old) ≡ false }
    ensures { Gives (give_in (parts_in (decode image.old).size scratch.now) what left) image.old result image.new }
{
    match what {
        Request::New(amount) => {
            if left == 1 {
                return Ok(Gave::at(1, elder::place(image, Source::Blank(amount as usize))?));
            }
            Ok(Gave::at(0, fields::bump(image, amount)))
        }
        Request::Move(base) => Ok(Gave::at(1, scratch::place_part(image, scratch, base)?)),
    }
}

// Survivor i stands at the base that was given; the elder's work for the survivors so far.
pub fn note(
    image: Formed<'_>,
    roots: &[u64],
    scratch: &mut [u64],
    i: usize,
    tally: Work,
    g: Gave,
) -> Work
    requires roots_in_bounds { old_list_at (decode image.words.now).size (length roots.now / 3) ≤ length scratch.old }
    requires i_in_bounds { i < length roots.now / 3 + 2 * (decode image.words.now).size.n }
    requires sums_bound { (tally.collections + g.elder.collections < 2 ^ 64) × (tally.visits + g.elder.visits < 2 ^ 64) }
    ensures scratch_after { scratch.new ≡ set scratch.old (bases_at (decode image.entry.words.now).size (length roots.now / 3) + i) g.base }
    ensures sums { (result.collections ≡ tally.collections + g.elder.collections) × (result.visits ≡ tally.visits + g.elder.visits) }
{
    let at = Parts::of(image, roots).bases;
    scratch[at + i] = g.base;
    tally + g.elder
}
