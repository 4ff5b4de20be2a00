// The listing's lines: a command's number, its answer's text, LF. No `Display`, as in figure's text: a line can't fail.
#![tactic(auto)]

ghost use Rattle.std.specs.Prelude.{◌≡◌, ◌+◌, ◌*◌, ◌≤◌, length, Ok};
ghost use Rattle.model.specs.Run.{no_line};
ghost use Rattle.model.specs.Listing.{spaced, cell_text, line_text, line};
ghost use Rattle.value.specs.Value.{value_cell};
ghost use Rattle.figure.specs.Written.{Wrote, Room, Writes};
ghost use Rattle.command.specs.declared.answers.Answer.TheVariants.{Alloc, Load, Report, Figure as FigureOf};
ghost use Rattle.command.specs.Answers.{answer_line};
ghost use Rattle.lines.specs.Longest.{longest_spaced, longest_text, longest_line};
ghost use Rattle.lines.specs.Told.{told};

use collector::Allocation;
use command::Answer;
use figure::Figure;
use figure::text::Text;
use report::Statistics;
use value::{Value, Words};

// ---- Parts of a text

fn word(w: &[u8], t: &mut Text<'_>)
    requires { Room (length w.now) t.old }
    ensures { Writes w.now t.old t.new }
{
    let end = t.at + w.len();
    t.out[t.at..end].copy_from_slice(w);
    t.at = end;
}

// Each after a space.
fn each_spaced(n: &[u64], t: &mut Text<'_>)
    requires { Room (longest_spaced * length n.now) t.old }
    ensures { Writes (spaced n.now) t.old t.new }
{
    for x in n {
        t.spaced(*x);
    }
}

// Kind, heap and two words of a cell.
fn cell_numbers(v: Value) -> [u64; 4]
    ensures { spaced result ≡ cell_text (value_cell v) }
{
    match v {
        Value::Pointer(p) => [
            value::POINTER,
            u64::from(p.heap),
            p.base,
            p.offset.cast_unsigned(),
        ],
        _ => {
            let w = Words::from(v);
            [w.tag, 0, w.payload, 0]
        }
    }
}

// ---- The texts

// The pointer, its offset signed, then the four counts.
fn alloc_text(a: Allocation, t: &mut Text<'_>)
    requires { Room longest_text t.old }
    ensures { Writes (line_text (answer_line (Ok (Alloc a)))) t.old t.new }
{
    let p = a.pointer;
    let young = a.nursery;
    let old = a.elder;
    word(b"alloc", t);
    each_spaced(&[u64::from(p.heap), p.base], t);
    t.byte(b' ');
    t.signed(p.offset);
    each_spaced(
        &[young.collections, young.visits, old.collections, old.visits],
        t,
    );
}

fn load_text(v: Value, t: &mut Text<'_>)
    requires { Room longest_text t.old }
    ensures { Writes (line_text (answer_line (Ok (Load v)))) t.old t.new }
{
    word(b"load", t);
    each_spaced(&cell_numbers(v), t);
}

fn report_text(s: Statistics, t: &mut Text<'_>)
    requires { Room longest_text t.old }
    ensures { Writes (line_text (answer_line (Ok (Report s)))) t.old t.new }
{
    word(b"report", t);
    each_spaced(&<[u64; 11]>::from(s), t);
}

fn figure_text(f: Figure, t: &mut Text<'_>)
    requires { Room longest_text t.old }
    ensures { Writes (line_text (answer_line (Ok (FigureOf f)))) t.old t.new }
{
    word(b"figure", t);
    t.byte(b' ');
    t.figure(f);
}

fn refusal_text(q: u64, t: &mut Text<'_>)
    requires { Room longest_text t.old }
    ensures { Writes (line_text (no_line q)) t.old t.new }
{
    word(b"no", t);
    t.spaced(q);
}

#[tactic(auto, unfolding(model::specs::Listing::line_text, model::specs::Listing::new_word, model::specs::Listing::set_word, model::specs::Listing::store_word))]
fn text(answer: Result<Answer, u64>, t: &mut Text<'_>)
    requires { Room longest_text t.old }
    ensures { Writes (line_text (told answer)) t.old t.new }
{
    match answer {
        Ok(Answer::New) => word(b"new", t),
        Ok(Answer::Alloc(a)) => alloc_text(a, t),
        Ok(Answer::Set) => word(b"set", t),
        Ok(Answer::Load(v)) => load_text(v, t),
        Ok(Answer::Store) => word(b"store", t),
        Ok(Answer::Report(s)) => report_text(s, t),
        Ok(Answer::Figure(f)) => figure_text(f, t),
        Err(q) => refusal_text(q, t),
    }
}

// Writes it at a place of `out`, leaves the rest as it was, and returns the place behind. Any number may be told of a refusal: a line is
// text, and knows no question.
pub fn line(number: u64, answer: Result<Answer, u64>, out: &mut [u8], at: usize) -> usize
    requires { at + longest_line ≤ length out.old }
    ensures { Wrote (line number (told answer)) out.old at out.new result }
{
    let mut t = Text { out, at };
    t.decimal(number);
    t.byte(b' ');
    text(answer, &mut t);
    t.byte(b'\n');
    t.at
}
