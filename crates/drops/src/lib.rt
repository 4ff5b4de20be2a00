// The cells of the allocations that a collection of the elder drops, counted out of its barrier.
#![tactic(auto)]

ghost use Rattle.std.specs.Prelude.{◌≡◌, true, ◌&&◌, not};
ghost use Rattle.model.specs.Records.{whole_cells};
ghost use Rattle.model.specs.Elder.{keeps, count_dropped};
ghost use Rattle.question.specs.Question.{answer};
ghost use Rattle.barrier.specs.Counts.{barrier_of, any_crossing};
ghost use Rattle.trace.specs.Words.{listed};
ghost use Rattle.slots.specs.Slots.{Packed, slots_of};

use barrier::{Way, WriteBarrier, cells};
use question::Question;
use trace::Member;

// Whether the slot at base b has cells to count out: one crosses, and (1, b, 0) is no member.
#[tactic(auto, using(crate::proofs::Drops::told))]
fn is_counted(slot: &[u64], b: usize, members: &[u64]) -> bool
    requires { whole_cells slot.now ≡ true }
    ensures { result ≡ (any_crossing 1 slot.now && not (keeps (listed members.now) b)) }
{
    // Most bases have no allocation, and cost this test alone: without it a report of the largest heap takes a third longer.
    if slot.is_empty() {
        return false;
    }
    cells::any_crosses(slot, 1) && !trace::find(members, Member::start(1, b as u64))
}

// All slots in base order; the first refusal ends it. The barrier, which is long, is handed on only where something is counted.
#[tactic(auto, using(crate::proofs::Drops::laws))]
pub fn count_dropped(
    lens: &[u64],
    cells: &[u64],
    members: &[u64],
    mut barrier: WriteBarrier,
) -> Result<WriteBarrier, Question>
    requires { Packed lens.now cells.now (slots_of lens.now cells.now) }
    ensures { answer barrier_of result ≡ count_dropped (listed members.now) 0 (slots_of lens.now cells.now) (barrier_of barrier) }
{
    let mut at: usize = 0;
    for (b, len) in lens.iter().enumerate() {
        let end = at + 3 * *len as usize;
        if is_counted(&cells[at..end], b, members) {
            barrier = cells::count_cells(&cells[at..end], 1, Way::Out, barrier)?;
        }
        at = end;
    }
    Ok(barrier)
}
