// The heap for C: a slice is a pointer and a count, an array a pointer. Every function but the first two answers 0, or the
// number of the question that got a no; then nothing has changed, `out` neither. The functions named `_formed` take an image that 1 and
// 2 were asked of, and ask neither. That both stand here, in twos, is the C interface (include/heap.h).
#![tactic(auto)]

ghost use Rattle.std.specs.Prelude.{◌≡◌, ◌&&◌, List, [], ◌∷◌, ℕ, leb, length};
ghost use Rattle.std.specs.Int.{w64};
ghost use Rattle.std.proofs.Common.{of_z};
ghost use Rattle.model.specs.Records.{cell_words};
ghost use Rattle.model.specs.Heap.{in_bounds};
ghost use Rattle.model.specs.Image.{image_length, decode};
ghost use Rattle.model.specs.Collector.{report};
ghost use Rattle.model.specs.Figure.{figure};
ghost use Rattle.model.specs.Calls.{scratch_length, reported, allocs, reads, writes, call, report_call, new_call};
ghost use Rattle.theorems.specs.Doors.{on_formed};
ghost use Rattle.theorems.specs.Fit.{Image};
ghost use Rattle.question.specs.Question.{answer as answer_of};
ghost use Rattle.value.specs.Value.{value_cell};
ghost use Rattle.trace.specs.Words.{pointer};
ghost use Rattle.image.specs.Places.{sizes};
ghost use Rattle.image.specs.Answers.{or_zero, made_outcome};
ghost use Rattle.access.specs.Access.{loaded_cell, stored_outcome};
ghost use Rattle.report.specs.Numbers.{numbers};
ghost use Rattle.figure.specs.Answer.{model_figure, figured_answer};
ghost use Rattle.heap_c.specs.Replies.{words_of, allocation_words, figure_words, figure_answer, Answers, Leaves, Reports, Allocates};

use collector::Allocation;
use figure::Figure;
use image::formed::Formed;
use image::sizes::Sizes;
use question::Question;
use report::Statistics;
use value::{Pointer, Value, Words};

// What is handed to C as N words. It is no `From` of std's: that has to stand in the type's own crate (an orphan is refused), so that
// arrays which only C wants, and what they say, would stand in value, collector and figure. By functions and `map` each of the
// seven calls would name the function beside the type that tells it.
trait Reply<const N: usize>: Copy {
    ghost words: { Self → List ℕ };

    fn to_words(self) -> [u64; N]
        ensures { result ≡ words self };
}

fn answer<T: Reply<N>, const N: usize>(r: Result<T, Question>, out: &mut [u64; N]) -> u64
    ensures { Answers (answer_of T.words r) out.old result out.new }
{
    match r {
        Ok(t) => {
            *out = t.to_words();
            0
        }
        Err(q) => q.number(),
    }
}

// The words of an image of these sizes, 0 if they are out of bounds.
#[unsafe(no_mangle)]
pub extern "C" fn heap_words(n: u64, t: u64, s: u64, c: u64) -> u64
    ensures { result ≡ or_zero (in_bounds (sizes n t s c)) (image_length (sizes n t s c)) }
{
    Sizes { n, t, s, c }.image_words().unwrap_or(0)
}

// The words of scratch that r root cells want, 0 if a size or r is out of bounds.
#[unsafe(no_mangle)]
pub extern "C" fn heap_scratch(n: u64, s: u64, c: u64, r: u64) -> u64
    ensures { result ≡ or_zero (in_bounds (sizes n 0 s c) && leb r 4096) (scratch_length (sizes n 0 s c) r) }
{
    Sizes { n, t: 0, s, c }.scratch_words(r).unwrap_or(0)
}

// ---- New

fn done_number(r: Result<(), Question>) -> u64
    ensures { (v : List ℕ) → Leaves (made_outcome r v) result v }
{
    match r {
        Ok(()) => 0,
        Err(q) => q.number(),
    }
}

// A fresh heap, over words of any content.
#[unsafe(no_mangle)]
pub extern "C" fn heap_new(image: &mut [u64], n: u64, t: u64, s: u64, c: u64) -> u64
    ensures { Leaves (new_call (sizes n t s c) image.old) result image.new }
{
    done_number(image::fresh(image, Sizes { n, t, s, c }))
}

// ---- Alloc

// The pointer and the four counts.
impl Reply<7> for Allocation {
    ghost words = { allocation_words };

    fn to_words(self) -> [u64; 7] {
        let p = self.pointer;
        let nursery = self.nursery;
        let elder = self.elder;
        let offset = p.offset.cast_unsigned();
        [
            u64::from(p.heap),
            p.base,
            offset,
            nursery.collections,
            nursery.visits,
            elder.collections,
            elder.visits,
        ]
    }
}

#[unsafe(no_mangle)]
pub extern "C" fn heap_alloc(
    image: &mut [u64],
    roots: &mut [u64],
    scratch: &mut [u64],
    amount: i64,
    out: &mut [u64; 7],
) -> u64
    ensures { Allocates (call (allocs roots.old (length scratch.old) (of_z w64 amount)) image.old) out.old result out.new image.new roots.new }
{
    answer(collector::alloc(image, roots, scratch, amount), out)
}

#[unsafe(no_mangle)]
pub extern "C" fn heap_alloc_formed(
    image: &mut [u64],
    roots: &mut [u64],
    scratch: &mut [u64],
    amount: i64,
    out: &mut [u64; 7],
) -> u64
    requires { Image image.old (decode image.old) }
    ensures { Allocates (on_formed (allocs roots.old (length scratch.old) (of_z w64 amount)) image.old) out.old result out.new image.new roots.new }
{
    answer(collector::alloc_formed(image, roots, scratch, amount), out)
}

// ---- Read

// The cell's three words.
impl Reply<3> for Value {
    ghost words = { λ v. cell_words (value_cell v ∷ []) };

    fn to_words(self) -> [u64; 3] {
        Words::from(self).into()
    }
}

#[unsafe(no_mangle)]
pub extern "C" fn heap_read(
    image: &[u64],
    heap: u8,
    base: u64,
    offset: i64,
    out: &mut [u64; 3],
) -> u64
    ensures { Answers (call (reads (pointer heap base (of_z w64 offset))) image.now).answer out.old result out.new }
{
    answer(access::read(image, Pointer { heap, base, offset }), out)
}

#[unsafe(no_mangle)]
pub extern "C" fn heap_read_formed(
    image: &[u64],
    heap: u8,
    base: u64,
    offset: i64,
    out: &mut [u64; 3],
) -> u64
    requires { Image image.now (decode image.now) }
    ensures { Answers (on_formed (reads (pointer heap base (of_z w64 offset))) image.now).answer out.old result out.new }
{
    answer(
        access::read_formed(Formed { words: image }, Pointer { heap, base, offset }),
        out,
    )
}

// ---- Write

#[unsafe(no_mangle)]
pub extern "C" fn heap_write(
    image: &mut [u64],
    heap: u8,
    base: u64,
    offset: i64,
    cell: &[u64],
) -> u64
    ensures { Leaves (call (writes (pointer heap base (of_z w64 offset)) cell.now) image.old) result image.new }
{
    done_number(access::write(image, Pointer { heap, base, offset }, cell))
}

#[unsafe(no_mangle)]
pub extern "C" fn heap_write_formed(
    image: &mut [u64],
    heap: u8,
    base: u64,
    offset: i64,
    cell: &[u64],
) -> u64
    requires { Image image.old (decode image.old) }
    ensures { Leaves (on_formed (writes (pointer heap base (of_z w64 offset)) cell.now) image.old) result image.new }
{
    done_number(access::write_formed(image, Pointer { heap, base, offset }, cell))
}

// ---- Report

impl Reply<11> for Statistics {
    ghost words = { numbers };

    fn to_words(self) -> [u64; 11] {
        self.into()
    }
}

#[unsafe(no_mangle)]
pub extern "C" fn heap_report(image: &mut [u64], out: &mut [u64; 11]) -> u64
    ensures { Reports (report_call image.old) out.old result out.new image.new }
{
    answer(report::report_lent(image), out)
}

#[unsafe(no_mangle)]
pub extern "C" fn heap_report_formed(image: &mut [u64], out: &mut [u64; 11]) -> u64
    requires { Image image.old (decode image.old) }
    ensures { Reports (reported image.old (report (decode image.old))) out.old result out.new image.new }
{
    answer(report::report_lent_formed(image), out)
}

// ---- Figure

// 1 for a figure below zero, then the thousandths.
impl Reply<2> for Figure {
    ghost words = { λ f. figure_words (model_figure f) };

    #[tactic(auto, unfolding(crate::specs::Replies::figure_words))]
    fn to_words(self) -> [u64; 2] {
        [u64::from(self.negative), self.thousandths]
    }
}

// Of a Float's 64 bits.
#[unsafe(no_mangle)]
pub extern "C" fn heap_figure(bits: u64, out: &mut [u64; 2]) -> u64
    ensures { Answers (figure_answer (figure bits)) out.old result out.new }
{
    answer(figure::figure_of_bits(bits), out)
}
