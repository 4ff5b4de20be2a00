// A region's cells counted one after the other; the first refusal ends it.
ghost use Rattle.std.specs.Prelude.{◌≡◌, true};
ghost use Rattle.model.specs.Res.{each};
ghost use Rattle.model.specs.Records.{whole_cells};
ghost use Rattle.model.specs.Barrier.{count_in, count_out};
ghost use Rattle.model.specs.Calls.{cells_in};
ghost use Rattle.barrier.specs.Counts.{barrier_of, step_of, crossing, any_crossing};
ghost use Rattle.question.specs.Question.{answer};

use crate::{Way, WriteBarrier};
use question::Question;
use value::Words;

// Whether a cell with this first word counts. Tested first, since each count step copies the barrier.
fn crosses(tag: u64, own: u8) -> bool
    ensures { result ≡ crossing tag own }
{
    value::heap_of(tag).is_some_and(|heap| heap != u64::from(own))
}

// Whether some cell counts. Where none does, the barrier, which is long, need not be handed on.
pub fn any_crosses(cells: &[u64], own: u8) -> bool
    ensures { result ≡ any_crossing own cells.now }
{
    let (triples, _) = cells.as_chunks::<3>();
    triples.iter().any(|c| crosses(c[0], own))
}

// Each counted in. Not by `?`, nor by one loop for both ways: either copies the barrier once more in each step.
fn counted_in(cells: &[u64], own: u8, barrier: WriteBarrier) -> Result<WriteBarrier, Question>
    requires { whole_cells cells.now ≡ true }
    ensures { answer barrier_of result ≡ each (count_in own) (cells_in cells.now) (barrier_of barrier) }
{
    let (triples, _) = cells.as_chunks::<3>();
    let mut counted = Ok(barrier);
    for cell in triples {
        if crosses(cell[0], own) {
            let Ok(reached) = counted else {
                return counted;
            };
            counted = reached.count_in(own, Words::from(*cell).value());
        }
    }
    counted
}

// The same counted out.
fn counted_out(cells: &[u64], own: u8, barrier: WriteBarrier) -> Result<WriteBarrier, Question>
    requires { whole_cells cells.now ≡ true }
    ensures { answer barrier_of result ≡ each (count_out own) (cells_in cells.now) (barrier_of barrier) }
{
    let (triples, _) = cells.as_chunks::<3>();
    let mut counted = Ok(barrier);
    for cell in triples {
        if crosses(cell[0], own) {
            let Ok(reached) = counted else {
                return counted;
            };
            counted = reached.count_out(own, Words::from(*cell).value());
        }
    }
    counted
}

// Each counted in, or each out.
pub fn count_cells(
    cells: &[u64],
    own: u8,
    way: Way,
    barrier: WriteBarrier,
) -> Result<WriteBarrier, Question>
    requires { whole_cells cells.now ≡ true }
    ensures { answer barrier_of result ≡ each (step_of way own) (cells_in cells.now) (barrier_of barrier) }
{
    match way {
        Way::In => counted_in(cells, own, barrier),
        Way::Out => counted_out(cells, own, barrier),
    }
}
