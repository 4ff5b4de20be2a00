// The model has definitions alone. A crate has one function at least; this is the number of words of a cell. Its contract cites
// no definition, so that a wrong one is judged by the table of cases alone.
#![tactic(auto)]

ghost use Rattle.std.specs.Prelude.{◌≡◌};

pub fn words_of_a_cell() -> usize
    ensures { result ≡ 3 }
{
    3
}
