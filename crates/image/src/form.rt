// Question 2, condition by condition.
ghost use Rattle.std.specs.Prelude.{◌≡◌};
ghost use Rattle.model.specs.Image.{cursor_in, formed};
ghost use Rattle.image.specs.Places.{Sized};
ghost use Rattle.image.specs.Conditions.{counters_good, barriers_good, young_good, old_good};

use super::{cells, counts, layout, lengths, places};

// Is the cursor below n, or n 0?
fn cursor_in(cursor: u64, n: u64) -> bool
    ensures { result ≡ cursor_in cursor n }
{
    cursor < n || n == 0 && cursor == 0
}

// An image that 1 was asked of.
#[derive(Clone, Copy)]
pub struct Measured<'a> {
    pub words: &'a [u64],
    pub ghost sized: { Sized words.now },
}

impl Measured<'_> {
    // The cursor and the three counters.
    fn counters(self) -> bool
        ensures { result ≡ counters_good self.entry.words.now }
    {
        cursor_in(self.words[layout::CURSOR], self.words[layout::SIZE_N])
            && counts::at_most(
                counts::MOST,
                &self.words[layout::YOUNG_COLLECTIONS..layout::YOUNG_PRESENT],
            )
    }

    // Both barriers.
    fn barriers(self) -> bool
        ensures { result ≡ barriers_good self.entry.words.now }
    {
        counts::barrier(
            self.words[layout::YOUNG_PRESENT],
            &self.words[layout::YOUNG_COUNTS..layout::OLD_COUNTS],
        ) && counts::barrier(
            self.words[layout::OLD_PRESENT],
            &self.words[layout::OLD_COUNTS..layout::LENGTHS],
        )
    }

    // The nursery's lengths and cells.
    fn young(self) -> bool
        ensures { result ≡ young_good self.entry.words.now }
    {
        let l = places::layout_of(self.words);
        lengths::tiled(self.words[layout::CURSOR], l.young_lengths(self.words))
            && cells::whole(l.young_cells(self.words))
    }

    // The elder's lengths and cells. A sum of c + 1 stands for any that is too large.
    fn old(self) -> bool
        ensures { result ≡ old_good self.entry.words.now }
    {
        let l = places::layout_of(self.words);
        let k = lengths::sum_to(l.c as u64 + 1, l.slot_lengths(self.words));
        cells::packed(l.elder_cells(self.words), l.c, k as usize)
    }

    // Question 2.
    pub fn is_formed(self) -> bool
        ensures { result ≡ formed self.entry.words.now }
    {
        self.counters() && self.barriers() && self.young() && self.old()
    }
}
