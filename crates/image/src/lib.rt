// The image of a heap: where its parts stand, a fresh one, and questions 1 to 4 over any words.
#![tactic(auto)]

mod cells;
pub mod counts;
mod form;
pub mod formed;
pub mod layout;
mod lengths;
pub mod places;
pub mod sizes;

ghost use Rattle.std.specs.Prelude.{◌≡◌};
ghost use Rattle.model.specs.Calls.{roots_good, value_good, new_call};
ghost use Rattle.question.specs.Question.{done_answer};
ghost use Rattle.image.specs.Places.{model_sizes};
ghost use Rattle.image.specs.Answers.{image_asked, made_outcome};

use form::Measured;
use question::Question;
use sizes::Sizes;

// Questions 1 and 2.
pub fn check(image: &[u64]) -> Result<(), Question>
    ensures { done_answer result ≡ image_asked image.now }
{
    if !sizes::is_sized(image) {
        return Err(Question::Sizes);
    }
    if !(Measured { words: image }).is_formed() {
        return Err(Question::Form);
    }
    Ok(())
}

// Question 3 of roots.
pub fn roots_ok(roots: &[u64]) -> bool
    ensures { result ≡ roots_good roots.now }
{
    roots.len() <= 3 * (sizes::ROOTS as usize) && cells::whole(roots)
}

// Question 3 of a value.
pub fn value_ok(cell: &[u64]) -> bool
    ensures { result ≡ value_good cell.now }
{
    cell.len() == 3 && cells::whole(cell)
}

// A fresh heap, over words of any content.
pub fn fresh(image: &mut [u64], z: Sizes) -> Result<(), Question>
    ensures { made_outcome result image.new ≡ new_call (model_sizes z) image.old }
{
    if !z.fit(image.len()) {
        return Err(Question::Sizes);
    }
    image.fill(0);
    image[..layout::SIZES].copy_from_slice(&[z.n, z.t, z.s, z.c]);
    Ok(())
}
