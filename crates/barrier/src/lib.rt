// Counts of a generation's pointers to the other heap, by the low byte of their base.
#![tactic(auto)]

pub mod cells;
pub mod masks;
pub mod words;

ghost use Rattle.std.specs.Prelude.{◌≡◌, ◌%◌};
ghost use Rattle.model.specs.Barrier.{absent, count_in, count_out};
ghost use Rattle.value.specs.Value.{value_cell};
ghost use Rattle.barrier.specs.Counts.{barrier_of, step_of};
ghost use Rattle.question.specs.Question.{answer};

use question::Question;
use value::Value;

// The counts of an absent barrier are taken as zero, whatever the array holds. They stand first, where the barrier is aligned: each step
// copies them. `present` stands beside them: an Option of the array would be copied as a whole too, and each step would take it apart.
#[derive(Clone, Copy)]
pub struct WriteBarrier {
    pub counts: [u32; WriteBarrier::SIZE],
    pub present: bool,
}

// Whether a value is counted in or out. No function that is passed in: it would need clauses of its own.
#[derive(Clone, Copy)]
pub enum Way {
    In,
    Out,
}

// Its steps take `mut self` and hand the barrier back, the form that document 01 names.
impl WriteBarrier {
    pub const SIZE: usize = 256;

    pub const MASK: u64 = 255;

    pub fn new() -> Self
        ensures { barrier_of result ≡ absent }
    {
        Self {
            counts: [0u32; WriteBarrier::SIZE],
            present: false,
        }
    }

    // Where a base is counted.
    pub fn place(base: u64) -> usize
        ensures { result ≡ base % 256 }
    {
        (base & Self::MASK) as usize
    }

    // A value of the generation `own` counted in: only a pointer to the other heap counts. The caller's own barrier stays as it is.
    pub fn count_in(mut self, own: u8, v: Value) -> Result<Self, Question>
        ensures { answer barrier_of result ≡ count_in own (value_cell v) (barrier_of self) }
    {
        let Some(p) = v.crossing(own) else {
            return Ok(self);
        };
        if !self.present {
            self.counts = [0u32; WriteBarrier::SIZE];
            self.present = true;
        }
        let at = WriteBarrier::place(p.base);
        // The bound of each count is the greatest number of its type.
        self.counts[at] = self.counts[at].checked_add(1).ok_or(Question::Bound)?;
        Ok(self)
    }

    // The same counted out; an absent barrier stays absent.
    pub fn count_out(mut self, own: u8, v: Value) -> Result<Self, Question>
        ensures { answer barrier_of result ≡ count_out own (value_cell v) (barrier_of self) }
    {
        let Some(p) = v.crossing(own) else {
            return Ok(self);
        };
        if !self.present {
            return Ok(self);
        }
        let at = WriteBarrier::place(p.base);
        self.counts[at] = self.counts[at].checked_sub(1).ok_or(Question::Count)?;
        Ok(self)
    }

    pub fn count(self, own: u8, way: Way, v: Value) -> Result<Self, Question>
        ensures { answer barrier_of result ≡ step_of way own (value_cell v) (barrier_of self) }
    {
        match way {
            Way::In => self.count_in(own, v),
            Way::Out => self.count_out(own, v),
        }
    }

    pub fn clear(mut self) -> Self
        ensures { barrier_of result ≡ absent }
    {
        self.present = false;
        self
    }
}
