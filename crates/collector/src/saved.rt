// The image saved in front of scratch, and put back. Behind the elder's cells in use an image is zero, so those words are not saved:
// the cost goes with live data.
ghost use Rattle.std.specs.Prelude.{◌≡◌, ◌≤◌, length, take};
ghost use Rattle.model.specs.Image.{decode};
ghost use Rattle.theorems.specs.Fit.{Image};
ghost use Rattle.words.specs.Words.{padded};
ghost use Rattle.collector.specs.Saving.{SavedTo};

use image::formed::Formed;
use image::places;

// Answers how many words were saved.
#[tactic(auto, using(crate::proofs::Saves::saves))]
pub fn save(image: Formed<'_>, scratch: &mut [u64]) -> usize
    requires { length image.words.now ≤ length scratch.old }
    ensures { SavedTo image.entry.words.now result scratch.new }
{
    let l = places::layout_of(image.words);
    let used = l.old + 3 * words::sum(l.slot_lengths(image.words));
    words::copy_words(scratch, 0, &image.words[..used]);
    used
}

pub fn restore(image: &mut [u64], scratch: &[u64], used: usize)
    requires { (used ≤ length image.old) × (used ≤ length scratch.now) }
    ensures { image.new ≡ padded (take used scratch.now) (length image.old) }
{
    words::copy_words(image, 0, &scratch[..used]);
    words::zero_from(image, used);
}
