// The parts of scratch: the saved image; for each of at most R + 2N young members three words, then a new base for each; the elder's
// members.
ghost use Rattle.std.specs.Prelude.{◌≡◌, ◌+◌, ◌*◌, ◌/◌, ◌^◌, ◌≤◌, ◌<◌, length, get_or, take, drop};
ghost use Rattle.model.specs.Image.{decode};
ghost use Rattle.model.specs.Calls.{scratch_length};
ghost use Rattle.theorems.specs.Fit.{Image};
ghost use Rattle.theorems.specs.Does.{Does};
ghost use Rattle.question.specs.Question.{number_answer};
ghost use Rattle.elder.specs.Steps.{place_step};
ghost use Rattle.cycle.specs.Scratch.{old_list_at, PartsOf, young_in, parts_in, Saved, SweptIn, CollectedIn};

use image::formed::Formed;
use image::places;
use nursery::Collected;
use question::Question;
use words::Source;
use words::cells::Cells;

// Where the lists stand behind the saved image: the young members, the new bases, the elder's members.
#[derive(Clone, Copy)]
pub struct Parts {
    pub members: usize,
    pub bases: usize,
    pub elder: usize,
}

impl Parts {
    #[tactic(auto, using(crate::proofs::Lending::lengths))]
    pub fn of(image: Formed<'_>, roots: &[u64]) -> Parts
        requires { old_list_at (decode image.words.now).size (length roots.now / 3) < 2 ^ 64 }
        ensures { PartsOf (decode image.entry.words.now).size (length roots.now / 3) result }
    {
        let n = fields::header_of(image).sizes.n as usize;
        let most = roots.len() / 3 + 2 * n;
        let members = image.words.len();
        let bases = members + 3 * most;
        let elder = bases + most;
        Parts {
            members,
            bases,
            elder,
        }
    }

    // The first count young members.
    pub fn members(self, scratch: &[u64], count: usize) -> &[u64]
        requires { self.members + 3 * count ≤ length scratch.now }
        ensures { result.now ≡ take (3 * count) (drop self.members scratch.now) }
    {
        let end = self.members + 3 * count;
        &scratch[self.members..end]
    }

    // Their new bases.
    pub fn bases(self, scratch: &[u64], count: usize) -> &[u64]
        requires { self.bases + count ≤ length scratch.now }
        ensures { result.now ≡ take count (drop self.bases scratch.now) }
    {
        let end = self.bases + count;
        &scratch[self.bases..end]
    }
}

// The base of survivor i, where the members stand from `at` on.
pub fn survivor(scratch: &[u64], at: usize, i: usize) -> u64
    requires { at + (3 * i + 1) < length scratch.now }
    ensures { result ≡ get_or scratch.now (at + (3 * i + 1)) 0 }
{
    scratch[at + (3 * i + 1)]
}

// A collection of the elder, its members listed at the end of scratch.
#[tactic(auto, unfolding(model::specs::Calls::scratch_length))]
pub fn sweep(
    image: &mut [u64],
    roots: &[u64],
    masks: &[u64],
    scratch: &mut [u64],
) -> Result<u64, Question>
    requires image { Image image.old (decode image.old) }
    requires roots_in_bounds { scratch_length (decode image.old).size (length roots.now / 3) ≤ length scratch.old }
    ensures { SweptIn image.old roots.now masks.now scratch.old result image.new scratch.new }
{
    let at = Parts::of(Formed { words: image }, roots).elder;
    elder::collect(image, roots, masks, &mut scratch[at..])
}

// A collection of the nursery, with the masks of this moment, its survivors listed behind the saved image.
#[tactic(auto, using(crate::proofs::Lending::lengths), unfolding(model::specs::Calls::scratch_length))]
pub fn collect_nursery(
    image: &mut [u64],
    roots: &[u64],
    scratch: &mut [u64],
) -> Result<Collected, Question>
    requires image { Image image.old (decode image.old) }
    requires roots_in_bounds { scratch_length (decode image.old).size (length roots.now / 3) ≤ length scratch.old }
    ensures { CollectedIn image.old roots.now scratch.old result image.new scratch.new }
{
    let masks = fields::barrier_of(Formed { words: image }, 1).masks();
    let at = image.len();
    nursery::collect(
        image,
        roots,
        &masks.places[..masks.count],
        &mut scratch[at..],
    )
}

// The saved allocation at base moved to the elder.
#[tactic(auto, using(crate::proofs::Lending::parts))]
pub fn place_part(image: &mut [u64], scratch: &[u64], base: u64) -> Result<u64, Question>
    requires image { Image image.old (decode image.old) }
    requires saved { Saved (decode image.old).size scratch.now }
    requires nonzero { 0 < get_or (young_in (decode image.old).size scratch.now).lens base 0 }
    ensures { Does (place_step (parts_in (decode image.old).size scratch.now base)) image.old (number_answer result) image.new }
{
    let l = places::layout_of(image);
    let part = nursery::promoted(
        l.young_lengths(scratch),
        l.young_cells(scratch),
        base as usize,
    );
    elder::place(image, Source::Given(Cells { words: part }))
}
