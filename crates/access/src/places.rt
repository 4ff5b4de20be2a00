// Where an access in heap 0 goes.
ghost use Rattle.std.specs.Prelude.{◌≡◌};
ghost use Rattle.std.specs.Int.{w64};
ghost use Rattle.std.proofs.Common.{of_z};
ghost use Rattle.model.specs.Heap.{Heap};
ghost use Rattle.model.specs.Collector.{young_at};
ghost use Rattle.trace.specs.Words.{pointer};
ghost use Rattle.access.specs.Access.{place_answer};

use question::Question;
use value::Pointer;

// The base read as i64, plus the offset: within i64, then in 0 to n − 1.
pub fn index(p: Pointer, n: usize) -> Result<usize, Question>
    ensures { (h : Heap) → h.size.n ≡ n → place_answer result ≡ young_at h (pointer 0 p.base (of_z w64 p.offset)) }
{
    let base = p.base.cast_signed();
    let sum = base.checked_add(p.offset).ok_or(Question::Range)?;
    match usize::try_from(sum) {
        Ok(at) if at < n => Ok(at),
        _ => Err(Question::Access),
    }
}
