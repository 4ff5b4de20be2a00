// What a command is answered that is not refused.
use collector::Allocation;
use figure::Figure;
use report::Statistics;
use value::Value;

#[derive(Clone, Copy)]
pub enum Answer {
    New,
    Alloc(Allocation),
    Set,
    Load(Value),
    Store,
    Report(Statistics),
    Figure(Figure),
}
