// The command program: a command file on standard input, its listing on standard output. There is no exit status: if a read or a
// write fails, the program says so on standard error and ends. Printed is then nothing, or the listing's beginning.
#![tactic(auto)]

ghost use Rattle.std.specs.Prelude.{◌≡◌, true, false, ◌+◌, ◌^◌, ◌<◌, ◌≤◌, length, MatchResult, IfErr};
ghost use Rattle.model.specs.Listing.{longest_file};
ghost use Rattle.heap.specs.Bytes.{Comes, Stops, Prints};

use std::io;
use std::io::{Read, Write};

// A byte more than the longest file has, which tells that a file is too long.
const FILE: usize = listing::FILE + 1;

// Words for an image of the program's largest heap, and for its scratch.
const IMAGE: usize = 2698;

const SCRATCH: usize = 5754;

const OUT: usize = 16384;

// What failed, on standard error. Where that fails too, nobody is left to tell.
fn say(rt: &HostRuntime, what: &str, error: &io::Error) {
    let _ = eprintln!(rt; "{what}: {error}");
}

// ---- Standard input

// How many bytes stand in front of the buffer, and how many of them the last read brought: none at the end, as `read` says it, and none
// where it failed.
#[derive(Clone, Copy, Default)]
struct Input {
    len: usize,
    came: usize,
}

// One read, behind the bytes of those before it.
fn read_more(rt: &HostRuntime, file: &mut [u8], input: &mut Input) -> io::Result<()>
    requires { input.old.len ≤ length file.old }
    ensures comes { Comes file.old input.old.len input.new.came file.new input.new.len }
    ensures failed { IfErr result (λ _. input.new.came ≡ 0) }
{
    input.came = 0;
    input.came = rt.stdin().read(&mut file[input.len..])?;
    input.len += input.came;
    Ok(())
}

// To the end of the input, or until `file` is full: no range and no iterator says when. A pipe hands over a part at a time, and each
// part goes into what is left of the file, lent anew. What came is told also where a read failed.
fn read_all(rt: &HostRuntime, file: &mut [u8], input: &mut Input) -> io::Result<()>
    requires { longest_file < length file.old }
    ensures { Stops file.new input.new.len input.new.came }
{
    *input = Input::default();
    read_more(rt, file, input)?;
    while input.came > 0 && input.len < file.len() {
        read_more(rt, file, input)?;
    }
    Ok(())
}

// ---- Standard output

// What is handed on is counted where it is handed on: the contract says how much that was, also where a write failed.
fn write_more(rt: &HostRuntime, bytes: &[u8], len: &mut usize) -> io::Result<()>
    requires { len.old + length bytes.now < 2 ^ 64 }
    ensures { len.new ≡ len.old + length bytes.now }
{
    *len += bytes.len();
    rt.stdout().write_all(bytes)
}

// The file's listing, by the bufferful; how many bytes were handed on, also when a write failed. It ends where the run stands at the
// file's end; an iterator of bufferfuls could not lend `out` anew at each turn.
#[tactic(auto, unfolding(theorems::specs::Program::program_words, theorems::specs::Program::program_scratch, model::specs::Image::image_length, model::specs::Calls::scratch_length))]
fn print_all(rt: &HostRuntime, file: &[u8], len: &mut usize) -> io::Result<()>
    requires { length file.now ≤ longest_file + 1 }
    ensures { MatchResult result (λ _. Prints file.now len.new true) (λ _. Prints file.now len.new false) }
{
    *len = 0;
    let mut image = [0u64; IMAGE];
    let mut scratch = [0u64; SCRATCH];
    let mut out = [0u8; OUT];
    let mut run = listing::begin();
    while run.at < file.len() {
        let used = listing::fill(file, &mut image, &mut scratch, &mut run, &mut out);
        write_more(rt, &out[..used], len)?;
    }
    Ok(())
}

#[tactic(auto, unfolding(model::specs::Listing::longest_file))]
fn main(rt: HostRuntime) {
    let mut file = [0u8; FILE];
    let mut input = Input::default();
    match read_all(&rt, &mut file, &mut input) {
        Ok(()) => {
            let mut len = 0;
            if let Err(e) = print_all(&rt, &file[..input.len], &mut len) {
                say(&rt, "standard output", &e);
            }
        }
        Err(e) => say(&rt, "standard input", &e),
    }
}
