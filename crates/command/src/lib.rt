// One command of the program: what it asks, what it does to heap and registers, and its answer.
#![tactic(auto)]

mod answers;

ghost use Rattle.std.specs.Prelude.{◌≡◌, true, List, ℕ, ◌<◌, ◌≤◌, length};
ghost use Rattle.std.specs.Int.{w64};
ghost use Rattle.std.proofs.Common.{of_z};
ghost use Rattle.model.specs.Command.{new, alloc, set, load, store, report as report_command, figure};
ghost use Rattle.model.specs.Run.{program_bounds};
ghost use Rattle.theorems.specs.Program.{program_words, program_scratch};
ghost use Rattle.value.specs.Value.{value_cell};
ghost use Rattle.image.specs.Places.{model_sizes};
ghost use Rattle.registers.specs.Cells.{Good};
ghost use Rattle.reader.specs.Answer.{model_command};
ghost use Rattle.command.specs.State.{holding, heapless, Held, Roomy, Ready};
ghost use Rattle.command.specs.Steps.{target_answer, target_in, is_new, Acts, Performs, made_answer, made_words};

pub use answers::Answer;
use image::formed::Formed;
use image::sizes::Sizes;
use question::Question;
use reader::{Access, Command};
use registers::{Register, Registers};
use value::{Pointer, Value, Words};

// The heap's words in a buffer, and the registers. Without a heap the words are 0, and no Option: the commands get the empty image then,
// of which the contracts speak as of any other (`Held`).
#[derive(Clone, Copy)]
pub struct State {
    pub words: usize,
    pub registers: Registers,
}

// ---- Registers alone

// 3 asks of the three words.
fn set_register(registers: &mut Registers, register: Register, w: Words) -> Result<Answer, Question>
    requires { Good registers.old }
    ensures { (image : List ℕ) → Held image → Acts (set register.number w.tag w.payload w.offset) image registers.old result image registers.new }
{
    let v = Value::try_from(w)?;
    registers.set(register, v);
    Ok(Answer::Set)
}

// Only a Float has a figure: 15.
fn take_figure(registers: &Registers, register: Register) -> Result<Answer, Question>
    requires { Good registers.now }
    ensures { (w : List ℕ) → Held w → Acts (figure register.number) w registers.now result w registers.now }
{
    let Value::Float { number, .. } = registers.get(register) else {
        return Err(Question::Figure);
    };
    let f = figure::figure_of(number)?;
    Ok(Answer::Figure(f))
}

// ---- Alloc

// The roots are the registers' words. The destination's old value is a root of its own alloc.
fn alloc_in(
    image: &mut [u64],
    scratch: &mut [u64],
    registers: &mut Registers,
    register: Register,
    amount: i64,
) -> Result<Answer, Question>
    requires held { Held image.old }
    requires program_scratch_in_bounds { program_scratch ≤ length scratch.old }
    requires good { Good registers.old }
    ensures { Acts (alloc register.number (of_z w64 amount)) image.old registers.old result image.new registers.new }
{
    if image.is_empty() {
        return Err(Question::Heap);
    }
    let mut roots = <[u64; Registers::WORDS]>::from(&*registers);
    let a = collector::alloc_formed(image, &mut roots, scratch, amount)?;
    *registers = Registers::from_words(&roots);
    registers.set(register, Value::Pointer(a.pointer));
    Ok(Answer::Alloc(a))
}

// ---- Load and store

// A pointer (13), with an offset added within i64 (9).
fn target_of(v: Value, offset: i64) -> Result<Pointer, Question>
    ensures { target_answer result ≡ target_in (value_cell v) (of_z w64 offset) }
{
    let Value::Pointer(p) = v else {
        return Err(Question::Pointer);
    };
    let offset = p.offset.checked_add(offset).ok_or(Question::Range)?;
    Ok(Pointer { offset, ..p })
}

// The value goes to answer and register as it was read.
fn load_in(image: &[u64], registers: &mut Registers, a: Access) -> Result<Answer, Question>
    requires held { Held image.now }
    requires good { Good registers.old }
    ensures { Acts (load a.register.number a.pointer.number (of_z w64 a.offset)) image.now registers.old result image.now registers.new }
{
    if image.is_empty() {
        return Err(Question::Heap);
    }
    let p = target_of(registers.get(a.pointer), a.offset)?;
    let v = access::read_formed(Formed { words: image }, p)?;
    registers.set(a.register, v);
    Ok(Answer::Load(v))
}

fn store_in(image: &mut [u64], registers: &Registers, a: Access) -> Result<Answer, Question>
    requires held { Held image.old }
    requires good { Good registers.now }
    ensures { Acts (store a.register.number a.pointer.number (of_z w64 a.offset)) image.old registers.now result image.new registers.now }
{
    if image.is_empty() {
        return Err(Question::Heap);
    }
    let cell = <[u64; 3]>::from(Words::from(registers.get(a.register)));
    let p = target_of(registers.get(a.pointer), a.offset)?;
    access::write_formed(image, p, &cell)?;
    Ok(Answer::Store)
}

// ---- Report

fn report_in(image: &mut [u64]) -> Result<Answer, Question>
    requires held { Held image.old }
    ensures { (registers : Registers) → Good registers → Acts report_command image.old registers result image.new registers }
{
    if image.is_empty() {
        return Err(Question::Heap);
    }
    let s = report::report_lent_formed(image)?;
    Ok(Answer::Report(s))
}

// ---- New

// The program's bounds of the sizes.
const MOST: Sizes = Sizes {
    n: 128,
    t: 8192,
    s: 128,
    c: 512,
};

#[tactic(auto, unfolding(model::specs::Run::program_bounds, model::specs::Run::largest))]
fn is_bounded(z: Sizes) -> bool
    ensures { result ≡ program_bounds (model_sizes z) }
{
    z.within(MOST)
}

// The first heap, with its words: 14 got a yes. 1 asks of the program's limits.
fn make(buffer: &mut [u64], z: Sizes) -> Result<usize, Question>
    requires { program_words ≤ length buffer.old }
    ensures { (registers : Registers) → Good registers → Performs (new (model_sizes z)) buffer.old (heapless registers) (made_answer result) buffer.new (holding (made_words result) registers) }
{
    if !is_bounded(z) {
        return Err(Question::Sizes);
    }
    let words = z.image_words().unwrap() as usize;
    image::fresh(&mut buffer[..words], z)?;
    Ok(words)
}

// ---- Any command

// Over the heap's own words, none without a heap. A `new` comes here only if there is a heap: 14.
fn act(
    image: &mut [u64],
    scratch: &mut [u64],
    registers: &mut Registers,
    command: Command,
) -> Result<Answer, Question>
    requires held { Held image.old × Good registers.old }
    requires program_scratch_in_bounds { program_scratch ≤ length scratch.old }
    requires image_nonzero { is_new (model_command command) ≡ true → 0 < length image.old }
    ensures { Acts (model_command command) image.old registers.old result image.new registers.new }
{
    match command {
        Command::New { .. } => Err(Question::Heap),
        Command::Alloc { register, amount } => alloc_in(
            image, scratch, registers, register, amount,
        ),
        Command::Set {
            register,
            tag,
            payload,
            offset,
        } => {
            let w = Words {
                tag: u64::from(tag),
                payload,
                offset,
            };
            set_register(registers, register, w)
        }
        Command::Load(a) => load_in(image, registers, a),
        Command::Store(a) => store_in(image, registers, a),
        Command::Report => report_in(image),
        Command::Figure { register } => take_figure(registers, register),
    }
}

impl State {
    // The buffer has room for every heap of the program, scratch for its every alloc.
    pub fn perform(
        &mut self,
        buffer: &mut [u64],
        scratch: &mut [u64],
        command: Command,
    ) -> Result<Answer, Question>
        requires ready { Ready buffer.old self.old }
        requires program_words_in_bounds { Roomy buffer.old scratch.old }
        ensures { Performs (model_command command) buffer.old self.old result buffer.new self.new }
    {
        if self.words == 0
            && let Command::New { n, t, s, c } = command
        {
            let z = Sizes {
                n: u64::from(n),
                t: u64::from(t),
                s: u64::from(s),
                c: u64::from(c),
            };
            self.words = make(buffer, z)?;
            return Ok(Answer::New);
        }
        act(
            &mut buffer[..self.words],
            scratch,
            &mut self.registers,
            command,
        )
    }
}
