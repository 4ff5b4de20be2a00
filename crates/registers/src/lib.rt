// The sixteen registers of the command program, Uninitialized at first: the roots.
#![tactic(auto)]

ghost use Rattle.std.specs.Prelude.{◌≡◌, true, [], ◌∷◌, ◌<◌, get_or, replicate, set, MatchResult};
ghost use Rattle.model.specs.Records.{blank, cell_words, whole_cells};
ghost use Rattle.model.specs.Calls.{cells_in};
ghost use Rattle.question.specs.declared.Question.TheVariants.{Command};
ghost use Rattle.value.specs.Value.{value_cell};
ghost use Rattle.registers.specs.Cells.{unset, cells_of_registers, Good};

use question::Question;
use value::{Value, Words};

// One of the sixteen: 12 asks that of a command's byte.
#[derive(Clone, Copy)]
pub struct Register {
    pub number: u8,
    ghost below: { number < 16 },
}

impl TryFrom<u8> for Register {
    type Error = Question;

    ghost try_from_gives = { λ k r. MatchResult r (λ x. x.number ≡ k) (λ q. (q ≡ Command) × (15 < k)) };

    fn try_from(number: u8) -> Result<Register, Question> {
        match number {
            0..16 => Ok(Register { number }),
            _ => Err(Question::Command),
        }
    }
}

impl Register {
    // Its place among the sixteen.
    fn index(self) -> usize
        ensures { result ≡ self.number }
    {
        usize::from(self.number)
    }
}

#[derive(Clone, Copy)]
pub struct Registers {
    pub cells: [Value; Registers::COUNT],
}

impl Registers {
    pub const COUNT: usize = 16;

    // Three words a register.
    pub const WORDS: usize = 3 * Registers::COUNT;

    pub fn new() -> Self
        ensures cells { cells_of_registers result ≡ replicate 16 blank }
        ensures good { Good result }
    {
        Self {
            cells: [Value::Uninitialized; Registers::COUNT],
        }
    }

    pub fn get(&self, r: Register) -> Value
        ensures { result ≡ get_or self.now.cells r.number unset }
    {
        self.cells[r.index()]
    }

    pub fn set(&mut self, r: Register, v: Value)
        ensures { self.new.cells ≡ set self.old.cells r.number v }
    {
        self.cells[r.index()] = v;
    }

    // The registers of words that are valid cells. `From` can't ask for that, and `TryFrom` would refuse what never comes.
    pub fn from_words(w: &[u64; Registers::WORDS]) -> Self
        requires { whole_cells w.now ≡ true }
        ensures cells { cells_of_registers result ≡ cells_in w.now }
        ensures good { Good result }
    {
        let mut s = Registers::new();
        for (i, cell) in s.cells.iter_mut().enumerate() {
            *cell = Words::at(w, i).value();
        }
        s
    }
}

// The roots: three words a register.
impl From<&Registers> for [u64; Registers::WORDS] {
    ghost from_gives = { λ s w. (w ≡ cell_words (cells_of_registers s.now)) × (Good s.now → whole_cells w ≡ true) };

    fn from(s: &Registers) -> [u64; Registers::WORDS] {
        let cells = s.cells.map(
            |v|
                ensures { result ≡ cell_words (value_cell v ∷ []) }
            { <[u64; 3]>::from(Words::from(v)) },
        );
        let mut w = [0u64; Registers::WORDS];
        w.copy_from_slice(cells.as_flattened());
        w
    }
}
