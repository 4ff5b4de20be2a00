// Commands read from the bytes of a command file: a byte for the command, then its operands, little-endian.
#![tactic(auto)]

ghost use Rattle.std.specs.Prelude.{◌≡◌, false, [], ◌∷◌, ◌+◌, ◌<◌, ◌≤◌, length, Some, MatchResult};
ghost use Rattle.std.specs.Int.{w64};
ghost use Rattle.std.proofs.Common.{of_z};
ghost use Rattle.model.specs.Lists.{all_at_most};
ghost use Rattle.model.specs.Command.{field, command_of};
ghost use Rattle.question.specs.Question.{answer};
ghost use Rattle.question.specs.declared.Question.TheVariants.{Command as Malformed};
ghost use Rattle.reader.specs.Answer.{model_command, with_registers, byte_of, operand_count, Reads, next_answer, next_at, Passes};

use question::Question;
use registers::Register;

// A register, the register that holds the pointer, and the added offset.
#[derive(Clone, Copy)]
pub struct Access {
    pub register: Register,
    pub pointer: Register,
    pub offset: i64,
}

// Each operand has the width that it has in the file. Amounts and added offsets are signed; a value is its cell's three words.
#[derive(Clone, Copy)]
pub enum Command {
    New {
        n: u16,
        t: u16,
        s: u16,
        c: u16,
    },
    Alloc {
        register: Register,
        amount: i64,
    },
    Set {
        register: Register,
        tag: u16,
        payload: u64,
        offset: u64,
    },
    Load(Access),
    Store(Access),
    Report,
    Figure {
        register: Register,
    },
}

// ---- Operands of two and eight bytes

fn short_at(w: &[u8], at: usize) -> u16
    requires { at + 2 ≤ length w.now }
    ensures { result ≡ field w.now at 2 }
{
    u16::from_le_bytes([w[at], w[at + 1]])
}

fn word_at(w: &[u8], at: usize) -> u64
    requires { at + 8 ≤ length w.now }
    ensures { result ≡ field w.now at 8 }
{
    u64::from_le_bytes(w[at..at + 8].try_into().unwrap())
}

fn signed_at(w: &[u8], at: usize) -> i64
    requires { at + 8 ≤ length w.now }
    ensures { of_z w64 result ≡ field w.now at 8 }
{
    word_at(w, at).cast_signed()
}

fn access_of(w: &[u8]) -> Result<Access, Question>
    requires { length w.now ≡ 10 }
    ensures { MatchResult result (λ a. (a.register.number ≡ field w.now 0 1) × (a.pointer.number ≡ field w.now 1 1) × (of_z w64 a.offset ≡ field w.now 2 8)) (λ q. (q ≡ Malformed) × (all_at_most 15 (field w.now 0 1 ∷ field w.now 1 1 ∷ []) ≡ false)) }
{
    Ok(Access {
        register: Register::try_from(w[0])?,
        pointer: Register::try_from(w[1])?,
        offset: signed_at(w, 2),
    })
}

// ---- The byte of each command

#[derive(Clone, Copy)]
enum Opcode {
    New,
    Alloc,
    Set,
    Load,
    Store,
    Report,
    Figure,
}

impl TryFrom<u8> for Opcode {
    type Error = Question;

    ghost try_from_gives = { Reads };

    fn try_from(byte: u8) -> Result<Opcode, Question> {
        match byte {
            b'N' => Ok(Opcode::New),
            b'A' => Ok(Opcode::Alloc),
            b'V' => Ok(Opcode::Set),
            b'L' => Ok(Opcode::Load),
            b'S' => Ok(Opcode::Store),
            b'R' => Ok(Opcode::Report),
            b'F' => Ok(Opcode::Figure),
            _ => Err(Question::Command),
        }
    }
}

impl Opcode {
    // How many operand bytes the command has.
    fn operands(self) -> usize
        ensures { result ≡ operand_count self }
    {
        match self {
            Opcode::New => 8,
            Opcode::Alloc => 9,
            Opcode::Set => 19,
            Opcode::Load | Opcode::Store => 10,
            Opcode::Report => 0,
            Opcode::Figure => 1,
        }
    }

    // The command of its operand bytes, if each register is one of the sixteen.
    fn command(self, w: &[u8]) -> Result<Command, Question>
        requires { length w.now ≡ operand_count self }
        ensures { answer model_command result ≡ with_registers (command_of (byte_of self) w.now) }
    {
        Ok(match self {
            Opcode::New => Command::New {
                n: short_at(w, 0),
                t: short_at(w, 2),
                s: short_at(w, 4),
                c: short_at(w, 6),
            },
            Opcode::Alloc => Command::Alloc {
                register: Register::try_from(w[0])?,
                amount: signed_at(w, 1),
            },
            Opcode::Set => Command::Set {
                register: Register::try_from(w[0])?,
                tag: short_at(w, 1),
                payload: word_at(w, 3),
                offset: word_at(w, 11),
            },
            Opcode::Load => Command::Load(access_of(w)?),
            Opcode::Store => Command::Store(access_of(w)?),
            Opcode::Report => Command::Report,
            Opcode::Figure => Command::Figure {
                register: Register::try_from(w[0])?,
            },
        })
    }
}

// ---- What stands at a place of a file

// The command at a place, and the place behind it.
fn command_at(file: &[u8], at: usize) -> Result<(Command, usize), Question>
    requires { at < length file.now }
    ensures { next_answer (Some result) ≡ next_at file.now at }
{
    let from = at + 1;
    let opcode = Opcode::try_from(file[at])?;
    let behind = from + opcode.operands();
    let operands = file.get(from..behind).ok_or(Question::Command)?;
    Ok((opcode.command(operands)?, behind))
}

// What stands at a place: nothing at the file's end and beyond. Not by `then`: nothing is known of what its closure answered.
pub fn next_at(file: &[u8], at: usize) -> Option<Result<(Command, usize), Question>>
    ensures { next_answer result ≡ next_at file.now at }
{
    if file.len() <= at {
        return None;
    }
    Some(command_at(file, at))
}

// A file, and the place of its next command: the form that document 01 names.
#[derive(Drop)]
pub struct Reader<'a> {
    pub file: &'a [u8],
    pub at: usize,
}

impl<'a> Reader<'a> {
    // Set at a place of a file.
    pub fn new(file: &'a [u8], at: usize) -> Reader<'a>
        ensures { (result.file ≡ file.entry) × (result.at ≡ at) }
    {
        Reader { file, at }
    }
}

impl<'a> Iterator for Reader<'a> {
    type Item = Result<Command, Question>;

    ghost next_gives = { Passes };

    // What stands at the cursor, which moves behind it if it is a command.
    fn next(&mut self) -> Option<Result<Command, Question>> {
        match next_at(self.file, self.at)? {
            Ok((command, behind)) => {
                self.at = behind;
                Some(Ok(command))
            }
            Err(q) => Some(Err(q)),
        }
    }
}

// What stands at a place, by a reader that is set there: what the program runs.
pub fn read_at(file: &[u8], at: usize) -> Option<Result<(Command, usize), Question>>
    ensures { next_answer result ≡ next_at file.now at }
{
    let mut reader = Reader::new(file, at);
    Some(reader.next()?.map(|command| (command, reader.at)))
}
