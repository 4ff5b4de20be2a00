// What a write counts, by the barrier's own steps. The barrier is long: it is loaded only where a cell counts, and of the counts only
// those that changed are stored.
ghost use Rattle.std.specs.Prelude.{◌≡◌};
ghost use Rattle.model.specs.Image.{decode};
ghost use Rattle.theorems.specs.Fit.{Image};
ghost use Rattle.value.specs.Value.{value_cell};
ghost use Rattle.barrier.specs.Counts.{barrier_of};
ghost use Rattle.fields.specs.Fields.{Turns, bar_of, on_bar};
ghost use Rattle.access.specs.Counting.{count_of, recounted, on_counts, Leaves};

use barrier::WriteBarrier;
use image::formed::Formed;
use question::Question;
use value::Value;

// The count of a value that counts, stored as `b` has it. An absent barrier has none.
fn store_count(image: &mut [u64], own: u8, v: Value, b: &WriteBarrier)
    requires { Image image.old (decode image.old) }
    ensures { Turns (λ h. on_bar own (count_of own (value_cell v) (barrier_of b.now) (bar_of own h)) h) image.old image.new }
{
    let Some(p) = v.crossing(own) else {
        return;
    };
    if !b.present {
        return;
    }
    let at = WriteBarrier::place(p.base);
    fields::put_count(image, own, at, u64::from(b.counts[at]));
}

// The old value counted out, then the new one in. Nothing is stored before both steps have got their answer.
fn count_both(image: &mut [u64], own: u8, old: Value, new: Value) -> Result<(), Question>
    requires { Image image.old (decode image.old) }
    ensures { Leaves (on_counts own (recounted own (value_cell old) (value_cell new)) (decode image.old)) image.old result image.new }
{
    let less = fields::barrier_of(Formed { words: image }, own).count_out(own, old)?;
    let more = less.count_in(own, new)?;
    store_count(image, own, old, &more);
    store_count(image, own, new, &more);
    Ok(())
}

// The same, but where neither counts, nothing is done. Two functions: what `?` binds, 1 KB each time, is zeroed where its function begins.
pub fn recount(image: &mut [u64], own: u8, old: Value, new: Value) -> Result<(), Question>
    requires { Image image.old (decode image.old) }
    ensures { Leaves (on_counts own (recounted own (value_cell old) (value_cell new)) (decode image.old)) image.old result image.new }
{
    if old.crossing(own).is_some() || new.crossing(own).is_some() {
        return count_both(image, own, old, new);
    }
    Ok(())
}
