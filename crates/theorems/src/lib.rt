// The theorems have no code. A crate has one function at least; this is the number of counts of a barrier.
#![tactic(auto)]

ghost use Rattle.std.specs.Prelude.{◌≡◌};
ghost use Rattle.model.specs.Barrier.{cache};

pub fn counts_of_a_barrier() -> usize
    ensures { result ≡ cache }
{
    256
}
