// Where the parts of a given image stand.
ghost use Rattle.std.specs.Prelude.{◌≡◌, ◌-◌, ◌≤◌, length, take, drop};
ghost use Rattle.image.specs.Places.{Sized};
ghost use Rattle.image.specs.Laid.{Laid};

use super::layout;
use super::sizes::Sizes;

// Sizes, and the places of the regions: the counts of both barriers, the nursery's first; lengths and slots; the nursery's
// cells and the elder's. All of them stand here, also those that only `Laid` reads.
#[derive(Clone, Copy)]
pub struct Layout {
    pub n: usize,
    pub s: usize,
    pub c: usize,
    pub counts: usize,
    pub lens: usize,
    pub slots: usize,
    pub young: usize,
    pub old: usize,
}

// The parts, as they are read, of an image whose layout it is, or of words that have one in front. The words are handed in, and not held: a
// layout is kept while its image is written, and a part that is written is cut by its writer, since a method that lent it would need a
// clause on what comes back.
impl Layout {
    // The nursery's lengths.
    pub fn young_lengths(self, words: &[u64]) -> &[u64]
        requires { (self.lens ≤ self.slots) × (self.slots ≤ length words.now) }
        ensures { result.now ≡ take (self.slots - self.lens) (drop self.lens words.now) }
    {
        &words[self.lens..self.slots]
    }

    // The elder's.
    pub fn slot_lengths(self, words: &[u64]) -> &[u64]
        requires { (self.slots ≤ self.young) × (self.young ≤ length words.now) }
        ensures { result.now ≡ take (self.young - self.slots) (drop self.slots words.now) }
    {
        &words[self.slots..self.young]
    }

    // The nursery's cells.
    pub fn young_cells(self, words: &[u64]) -> &[u64]
        requires { (self.young ≤ self.old) × (self.old ≤ length words.now) }
        ensures { result.now ≡ take (self.old - self.young) (drop self.young words.now) }
    {
        &words[self.young..self.old]
    }

    // The elder's, to the end of the image.
    pub fn elder_cells(self, image: &[u64]) -> &[u64]
        requires { self.old ≤ length image.now }
        ensures { result.now ≡ take (length image.now - self.old) (drop self.old image.now) }
    {
        &image[self.old..]
    }
}

#[tactic(auto, using(crate::proofs::Bounds::sized_bounds))]
pub fn layout_of(image: &[u64]) -> Layout
    requires { Sized image.now }
    ensures { Laid image.now result }
{
    let z = Sizes::of(image);
    Layout {
        n: z.n as usize,
        s: z.s as usize,
        c: z.c as usize,
        counts: layout::YOUNG_COUNTS,
        lens: layout::LENGTHS,
        slots: z.slot_lengths(),
        young: z.young_cells(),
        old: z.old_cells(),
    }
}
