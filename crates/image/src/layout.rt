// Where the parts of an image stand. Code has these offsets from here alone. What follows from them, and moves with them: the parts of
// scratch (cycle, scratch.rt), the lengths of the program's buffers (heap, main.rt), bounds in fields (places_of).
ghost use Rattle.std.specs.Prelude.{◌≡◌, ◌≤◌, length};
ghost use Rattle.model.specs.Image.{sizes_of, image_length};
ghost use Rattle.model.specs.Calls.{scratch_length};
ghost use Rattle.image.specs.Places.{model_sizes, slot_lengths_at, young_cells_at, old_cells_at};

use super::sizes::Sizes;

// The sizes, and the number of their words.
pub const SIZES: usize = 4;

pub const SIZE_N: usize = 0;

pub const SIZE_T: usize = 1;

pub const SIZE_S: usize = 2;

pub const SIZE_C: usize = 3;

// The nursery's cursor, then the counters.
pub const CURSOR: usize = 4;

pub const YOUNG_COLLECTIONS: usize = 5;

pub const PROMOTIONS: usize = 6;

pub const OLD_COLLECTIONS: usize = 7;

// Is a barrier present?
pub const YOUNG_PRESENT: usize = 8;

pub const OLD_PRESENT: usize = 9;

// Each barrier's counts, 256 words, then the nursery's lengths.
pub const YOUNG_COUNTS: usize = 10;

pub const OLD_COUNTS: usize = YOUNG_COUNTS + 256;

pub const LENGTHS: usize = OLD_COUNTS + 256;

// What follows from an image's sizes.
impl Sizes {
    // The sizes in an image.
    #[tactic(auto, unfolding(model::specs::Image::sizes_of))]
    pub fn of(image: &[u64]) -> Sizes
        requires { 4 ≤ length image.now }
        ensures { model_sizes result ≡ sizes_of image.now }
    {
        Sizes {
            n: image[SIZE_N],
            t: image[SIZE_T],
            s: image[SIZE_S],
            c: image[SIZE_C],
        }
    }

    // Where the elder's lengths begin.
    pub fn slot_lengths(self) -> usize
        requires { self.n ≤ 2048 }
        ensures { result ≡ slot_lengths_at self.n }
    {
        LENGTHS + self.n as usize
    }

    // Where the nursery's cells begin.
    pub fn young_cells(self) -> usize
        requires { (self.n ≤ 2048) × (self.s ≤ 8192) }
        ensures { result ≡ young_cells_at self.n self.s }
    {
        self.slot_lengths() + self.s as usize
    }

    // Where the elder's cells begin.
    pub fn old_cells(self) -> usize
        requires { (self.n ≤ 2048) × (self.s ≤ 8192) }
        ensures { result ≡ old_cells_at self.n self.s }
    {
        self.young_cells() + 3 * self.n as usize
    }

    // The image's length.
    #[tactic(auto, unfolding(model::specs::Image::image_length))]
    pub fn image_length(self) -> usize
        requires { (self.n ≤ 2048) × (self.s ≤ 8192) × (self.c ≤ 65536) }
        ensures { result ≡ image_length (model_sizes self) }
    {
        self.old_cells() + 3 * self.c as usize
    }

    // The words of scratch for r root cells: the image, four for each young member and three for each old one.
    #[tactic(auto, unfolding(model::specs::Image::image_length, model::specs::Calls::scratch_length))]
    pub fn scratch_length(self, r: usize) -> usize
        requires { (self.n ≤ 2048) × (self.s ≤ 8192) × (self.c ≤ 65536) × (r ≤ 4096) }
        ensures { result ≡ scratch_length (model_sizes self) r }
    {
        let young = r + 2 * self.n as usize;
        let old = r + self.s as usize + self.c as usize;
        self.image_length() + 4 * young + 3 * old
    }
}
