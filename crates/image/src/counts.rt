// Counts and counters within their bound.
ghost use Rattle.std.specs.Prelude.{◌≡◌};
ghost use Rattle.model.specs.Lists.{all_at_most};
ghost use Rattle.model.specs.Image.{flagged};

// The bound of each count and counter.
pub const MOST: u64 = u32::MAX as u64;

// Is each word at most m?
pub fn at_most(m: u64, words: &[u64]) -> bool
    ensures { result ≡ all_at_most m words.now }
{
    words.iter().all(|w| *w <= m)
}

// A barrier: its flag is 0 or 1, and with 0 it has only zero counts.
pub fn barrier(flag: u64, counts: &[u64]) -> bool
    ensures { result ≡ flagged flag counts.now }
{
    match flag {
        0 => at_most(0, counts),
        1 => at_most(MOST, counts),
        _ => false,
    }
}
