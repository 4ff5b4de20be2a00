// Sizes, their bounds, and question 1.
ghost use Rattle.std.specs.Prelude.{◌≡◌, ◌&&◌, leb, eqb};
ghost use Rattle.std.specs.Bool.{then_some};
ghost use Rattle.model.specs.Heap.{in_bounds};
ghost use Rattle.model.specs.Image.{image_length, sized};
ghost use Rattle.model.specs.Calls.{scratch_length};
ghost use Rattle.image.specs.Places.{model_sizes};

// The bounds of the sizes.
const MOST: Sizes = Sizes {
    n: 2048,
    t: 8192,
    s: 8192,
    c: 65536,
};

// The bound of the root cells.
pub const ROOTS: u64 = 4096;

#[derive(Clone, Copy)]
pub struct Sizes {
    pub n: u64,
    pub t: u64,
    pub s: u64,
    pub c: u64,
}

impl Sizes {
    // Is none above its bound?
    #[tactic(auto, using(std::proofs::Common::tests))]
    pub fn within(self, most: Sizes) -> bool
        ensures { result ≡ (leb self.n most.n && leb self.t most.t && leb self.s most.s && leb self.c most.c) }
    {
        self.n <= most.n && self.t <= most.t && self.s <= most.s && self.c <= most.c
    }

    #[tactic(auto, unfolding(model::specs::Heap::in_bounds))]
    pub fn in_bounds(self) -> bool
        ensures { result ≡ in_bounds (model_sizes self) }
    {
        self.within(MOST)
    }

    // The words of an image, if the sizes are within bounds.
    #[tactic(auto, using(crate::proofs::Bounds::asked_bounds))]
    pub fn image_words(self) -> Option<u64>
        ensures { result ≡ then_some (in_bounds (model_sizes self)) (image_length (model_sizes self)) }
    {
        if !self.in_bounds() {
            return None;
        }
        Some(self.image_length() as u64)
    }

    // The words of scratch that r root cells want, if the sizes and r are within bounds.
    #[tactic(auto, using(crate::proofs::Bounds::asked_bounds))]
    pub fn scratch_words(self, r: u64) -> Option<u64>
        ensures { result ≡ then_some (in_bounds (model_sizes self) && leb r 4096) (scratch_length (model_sizes self) r) }
    {
        if !self.in_bounds() || ROOTS < r {
            return None;
        }
        Some(self.scratch_length(r as usize) as u64)
    }

    // Are the sizes within bounds, and is the length theirs?
    pub fn fit(self, length: usize) -> bool
        ensures { result ≡ (in_bounds (model_sizes self) && eqb length (image_length (model_sizes self))) }
    {
        self.image_words() == Some(length as u64)
    }
}

// Question 1.
pub fn is_sized(image: &[u64]) -> bool
    ensures { result ≡ sized image.now }
{
    let [n, t, s, c, ..] = *image else {
        return false;
    };
    Sizes { n, t, s, c }.fit(image.len())
}
