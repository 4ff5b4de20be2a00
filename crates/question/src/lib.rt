// The questions that a call or command is asked, with their numbers. What can be refused answers a Result, whose error is the question
// that got a no.
#![tactic(auto)]

ghost use Rattle.std.specs.Prelude.{◌≡◌};
ghost use Rattle.question.specs.Question.{number};

#[derive(Clone, Copy, Debug, PartialEq, Eq)]
pub enum Question {
    // Are the sizes within bounds, and is the image's length theirs?
    Sizes = 1,
    // Is the image well formed?
    Form = 2,
    // Are roots or value whole, valid cells, and the roots within bounds?
    Cells = 3,
    // Is scratch long enough?
    Scratch = 4,
    // Is the amount above 0?
    Amount = 5,
    // Has each own-heap member of a nursery collection an allocation?
    Allocation = 6,
    // Has the elder room for the cells, at its new base?
    Room = 7,
    // Is the access valid?
    Access = 8,
    // Is an index or added offset within i64?
    Range = 9,
    // Does a count stay at 0 or above?
    Count = 10,
    // Does a count or counter stay within its bound?
    Bound = 11,
    // Is the command known and whole, its registers below 16, the file within its bound?
    Command = 12,
    // Does the pointer register hold a pointer?
    Pointer = 13,
    // Is there a heap, or for a new one, none yet?
    Heap = 14,
    // Is the register a Float that has a figure?
    Figure = 15,
}

impl Question {
    pub fn number(self) -> u64
        ensures { result ≡ number self }
    {
        self as u64
    }
}
