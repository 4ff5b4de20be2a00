// The listing of a command file, written into lent buffers, whole lines at a time.
#![tactic(auto)]

ghost use Rattle.std.specs.Prelude.{◌≡◌, List, ℕ, ◌+◌, ◌<◌, ◌≤◌, length};
ghost use Rattle.model.specs.Listing.{listing};
ghost use Rattle.reader.specs.Answer.{next_answer};
ghost use Rattle.command.specs.State.{Roomy};
ghost use Rattle.command.specs.Answers.{answer_line};
ghost use Rattle.lines.specs.Longest.{longest_line};
ghost use Rattle.lines.specs.Told.{told};
ghost use Rattle.listing.specs.Left.{stands_at, left_of, Going, Answers, Advances, Fills};

use command::{Answer, State};
use question::Question;
use reader::Command;
use registers::Registers;

// The most bytes of a file, and of a line.
pub const FILE: usize = 65536;

const LINE: usize = 259;

// The place and the number of the next command, and the state before it.
#[derive(Clone, Copy)]
pub struct Run {
    pub at: usize,
    pub number: u64,
    pub state: State,
}

// At the first command, without a heap.
pub fn begin() -> Run
    ensures { (file buffer : List ℕ) → Going file buffer result × (left_of file buffer result ≡ listing file) }
{
    let state = State {
        words: 0,
        registers: Registers::new(),
    };
    Run {
        at: 0,
        number: 1,
        state,
    }
}

// In a file that is too long nothing is a command.
#[tactic(auto, using(crate::proofs::Standing::lengths), unfolding(model::specs::Listing::longest_file))]
fn stands_at(file: &[u8], at: usize) -> Option<Result<(Command, usize), Question>>
    ensures { next_answer result ≡ stands_at file.now at }
{
    if file.len() <= FILE {
        return reader::read_at(file, at);
    }
    if at < file.len() {
        return Some(Err(Question::Command));
    }
    None
}

// One command: its answer, and the run behind it. File, buffer and scratch go on as they were lent: a struct of them would be taken
// apart here, and its contract would say of each part what it comes back as.
fn step(
    file: &[u8],
    buffer: &mut [u64],
    scratch: &mut [u64],
    run: &mut Run,
) -> Result<Answer, Question>
    requires going { Going file.now buffer.old run.old }
    requires at_in_bounds { run.old.at < length file.now }
    requires program_words_in_bounds { Roomy buffer.old scratch.old }
    ensures { Answers file.now buffer.old run.old result buffer.new run.new }
{
    run.number += 1;
    match stands_at(file, run.at).unwrap_or(Err(Question::Command)) {
        Ok((command, behind)) => {
            run.at = behind;
            run.state.perform(buffer, scratch, command)
        }
        Err(_) => {
            run.at = file.len();
            Err(Question::Command)
        }
    }
}

// The answer as its line tells it: of a question the number. Not by `map_err`: nothing is known of what its function made.
fn told(answer: Result<Answer, Question>) -> Result<Answer, u64>
    ensures { told result ≡ answer_line answer }
{
    match answer {
        Ok(a) => Ok(a),
        Err(q) => Err(q.number()),
    }
}

// One command and its line; the place behind that.
fn advance(
    file: &[u8],
    buffer: &mut [u64],
    scratch: &mut [u64],
    run: &mut Run,
    out: &mut [u8],
    used: usize,
) -> usize
    requires going { Going file.now buffer.old run.old }
    requires at_in_bounds { run.old.at < length file.now }
    requires program_words_in_bounds { Roomy buffer.old scratch.old }
    requires longest_line_in_bounds { used + longest_line ≤ length out.old }
    ensures { Advances file.now buffer.old run.old out.old used buffer.new run.new out.new result }
{
    let number = run.number;
    let answer = step(file, buffer, scratch, run);
    lines::line(number, told(answer), out, used)
}

// As many lines as `out` surely has room for; the place behind them. It ends there, or at the file's end: no range says so, and an
// iterator could not lend buffer, scratch and `out` anew at each turn.
pub fn fill(
    file: &[u8],
    buffer: &mut [u64],
    scratch: &mut [u64],
    run: &mut Run,
    out: &mut [u8],
) -> usize
    requires going { Going file.now buffer.old run.old }
    requires program_words_in_bounds { Roomy buffer.old scratch.old }
    requires longest_line_in_bounds { longest_line ≤ length out.old }
    ensures { Fills file.now buffer.old run.old buffer.new run.new out.new result }
{
    let mut used = 0;
    while run.at < file.len() && used + LINE <= out.len() {
        used = advance(file, buffer, scratch, run, out, used);
    }
    used
}
