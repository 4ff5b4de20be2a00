// Cells of three words.
ghost use Rattle.std.specs.Prelude.{◌≡◌, ◌*◌, length};
ghost use Rattle.model.specs.Records.{whole_cells};
ghost use Rattle.model.specs.Image.{packed_cells};

use super::counts;
use value::Words;

// Are the words whole, valid cells?
pub fn whole(words: &[u64]) -> bool
    ensures { result ≡ whole_cells words.now }
{
    let (cells, rest) = words.as_chunks::<3>();
    rest.is_empty() && cells.iter().all(|c| Words::from(*c).is_valid())
}

// Are the first k of c cells valid, and the rest zero?
pub fn packed(words: &[u64], c: usize, k: usize) -> bool
    requires { length words.now ≡ 3 * c }
    ensures { result ≡ packed_cells k words.now }
{
    k <= c && whole(&words[..3 * k]) && counts::at_most(0, &words[3 * k..])
}
