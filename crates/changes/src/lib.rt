// The cells that held a moved pointer, counted on the barrier of the generation that holds them. They are all alike, so
// their number is enough.
#![tactic(auto)]

ghost use Rattle.std.specs.Prelude.{◌≡◌};
ghost use Rattle.question.specs.Question.{answer};
ghost use Rattle.value.specs.Value.{value_cell};
ghost use Rattle.model.specs.Barrier.{count_in, count_out};
ghost use Rattle.barrier.specs.Counts.{barrier_of};
ghost use Rattle.slots.specs.Slots.{move_of};
ghost use Rattle.changes.specs.Changes.{times, count_change};

use barrier::WriteBarrier;
use question::Question;
use slots::Move;
use value::Value;

// One such cell: (heap, base, offset) out, then (1, new, 0) in.
pub fn count_change(own: u8, moved: Move, barrier: WriteBarrier) -> Result<WriteBarrier, Question>
    ensures { answer barrier_of result ≡ count_change own (move_of moved) (barrier_of barrier) }
{
    let less = barrier.count_out(own, moved.was())?;
    less.count_in(own, moved.becomes())
}

// All k of them, where both steps count.
#[tactic(auto, using(crate::proofs::Steps::laws))]
fn count_both(
    k: usize,
    own: u8,
    moved: Move,
    mut barrier: WriteBarrier,
) -> Result<WriteBarrier, Question>
    ensures { answer barrier_of result ≡ times k (count_change own (move_of moved)) (barrier_of barrier) }
{
    for _ in 0..k {
        barrier = count_change(own, moved, barrier)?;
    }
    Ok(barrier)
}

// A value counted in k times. Not by `?`, nor by one function for both ways: either copies the barrier once more in each step.
#[tactic(auto, using(crate::proofs::Steps::laws))]
fn counted_in(k: usize, own: u8, v: Value, barrier: WriteBarrier) -> Result<WriteBarrier, Question>
    ensures { answer barrier_of result ≡ times k (count_in own (value_cell v)) (barrier_of barrier) }
{
    let mut counted = Ok(barrier);
    for _ in 0..k {
        let Ok(reached) = counted else {
            return counted;
        };
        counted = reached.count_in(own, v);
    }
    counted
}

// The same counted out.
#[tactic(auto, using(crate::proofs::Steps::laws))]
fn counted_out(k: usize, own: u8, v: Value, barrier: WriteBarrier) -> Result<WriteBarrier, Question>
    ensures { answer barrier_of result ≡ times k (count_out own (value_cell v)) (barrier_of barrier) }
{
    let mut counted = Ok(barrier);
    for _ in 0..k {
        let Ok(reached) = counted else {
            return counted;
        };
        counted = reached.count_out(own, v);
    }
    counted
}

// All k of them; the first refusal ends it. A pointer that moves to the other heap counts in one of the two steps, and the other is not
// made: it would copy the barrier for nothing.
pub fn count_changes(
    k: usize,
    own: u8,
    moved: Move,
    barrier: WriteBarrier,
) -> Result<WriteBarrier, Question>
    ensures { answer barrier_of result ≡ times k (count_change own (move_of moved)) (barrier_of barrier) }
{
    let was = moved.was();
    let becomes = moved.becomes();
    if was.crossing(own).is_none() {
        return counted_in(k, own, becomes, barrier);
    }
    if becomes.crossing(own).is_none() {
        return counted_out(k, own, was, barrier);
    }
    count_both(k, own, moved, barrier)
}
