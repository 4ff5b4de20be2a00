// The masks of a heap: the places with a count above zero in the other's barrier.

ghost use Rattle.std.specs.Prelude.{◌≡◌, ◌≤◌};
ghost use Rattle.model.specs.Barrier.{masks};
ghost use Rattle.barrier.specs.Counts.{barrier_of, mask_list};

use crate::WriteBarrier;

// The first `count` places. No vector of arrayvec's: that can't be copied.
#[derive(Clone, Copy)]
pub struct Masks {
    pub places: [u64; WriteBarrier::SIZE],
    pub count: usize,
}

impl WriteBarrier {
    // In ascending order.
    pub fn masks(&self) -> Masks
        ensures { (mask_list result ≡ masks (barrier_of self.now)) × (result.count ≤ 256) }
    {
        let mut places = [0u64; WriteBarrier::SIZE];
        let mut count = 0;
        if self.present {
            for (place, n) in self.counts.iter().enumerate() {
                if 0 < *n {
                    places[count] = place as u64;
                    count += 1;
                }
            }
        }
        Masks { places, count }
    }
}
