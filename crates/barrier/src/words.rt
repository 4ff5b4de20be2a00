// A barrier as an image has it: a flag word and 256 count words.
ghost use Rattle.std.specs.Prelude.{◌≡◌, true, length};
ghost use Rattle.model.specs.Lists.{all_at_most};
ghost use Rattle.model.specs.Barrier.{cache, most, counts};
ghost use Rattle.model.specs.Image.{flag, barrier, flagged};
ghost use Rattle.barrier.specs.Counts.{barrier_of};

use crate::WriteBarrier;

// Count words as counts, and back, where they stand. Not by `zip`: nothing is known of what its `iter_mut` has written.
fn narrow(words: &[u64], counts: &mut [u32; WriteBarrier::SIZE])
    requires { (length words.now ≡ cache) × (all_at_most most words.now ≡ true) }
    ensures { counts.new ≡ words.now }
{
    for (i, count) in counts.iter_mut().enumerate() {
        *count = words[i] as u32;
    }
}

fn widen(from: &[u32; WriteBarrier::SIZE], words: &mut [u64])
    requires { length words.old ≡ cache }
    ensures { words.new ≡ from.now }
{
    for (i, word) in words.iter_mut().enumerate() {
        *word = u64::from(from[i]);
    }
}

pub fn load(flag: u64, words: &[u64]) -> WriteBarrier
    requires { (flagged flag words.now ≡ true) × (length words.now ≡ cache) }
    ensures { barrier_of result ≡ barrier flag words.now }
{
    let mut b = WriteBarrier::new();
    if flag != 0 {
        narrow(words, &mut b.counts);
        b.present = true;
    }
    b
}

pub fn flag_word(barrier: WriteBarrier) -> u64
    ensures { result ≡ flag (barrier_of barrier) }
{
    u64::from(barrier.present)
}

// The counts of an absent barrier are stored as zero.
pub fn store(barrier: WriteBarrier, words: &mut [u64])
    requires { length words.old ≡ cache }
    ensures { words.new ≡ counts (barrier_of barrier) }
{
    if barrier.present {
        widen(&barrier.counts, words);
    } else {
        words.fill(0);
    }
}
