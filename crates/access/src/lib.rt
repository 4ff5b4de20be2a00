// Read and write of one cell. The public functions take any words; those named `_formed` take an image that 1 and 2 were
// asked of.
#![tactic(auto)]

mod counts;
pub mod places;

ghost use Rattle.std.specs.Prelude.{◌≡◌, true, [], ◌<◌, length, get_or, ltb};
ghost use Rattle.std.specs.Int.{w64};
ghost use Rattle.std.proofs.Common.{of_z};
ghost use Rattle.model.specs.Records.{blank, cell_of, valid_words};
ghost use Rattle.model.specs.Image.{decode};
ghost use Rattle.model.specs.Collector.{read, write};
ghost use Rattle.model.specs.Calls.{writes, call};
ghost use Rattle.theorems.specs.Doors.{on_formed};
ghost use Rattle.theorems.specs.Fit.{Image};
ghost use Rattle.value.specs.Value.{value_cell};
ghost use Rattle.trace.specs.Words.{pointer};
ghost use Rattle.fields.specs.Fields.{cell_in};
ghost use Rattle.access.specs.Access.{pointer_of, stored_outcome, ValueOf, Loads, LoadsFrom};
ghost use Rattle.access.specs.Counting.{gone_if, store_young, store_old, Leaves};

use image::formed::Formed;
use question::Question;
use value::{Pointer, Value, Words};
use words::cells::Cell;

// The value of a valid cell's words.
fn cell_value(w: Words) -> Value
    requires { valid_words w.tag w.payload w.offset ≡ true }
    ensures { ValueOf (cell_of w.tag w.payload w.offset) result }
{
    w.value()
}

// The nursery's i-th cell.
fn young_value(image: Formed<'_>, i: usize) -> Value
    requires { i < (decode image.words.now).size.n }
    ensures { ValueOf (get_or (decode image.entry.words.now).young.cells i blank) result }
{
    cell_value(fields::young_cell(image, i))
}

fn read_young(image: Formed<'_>, p: Pointer) -> Result<Value, Question>
    ensures { Loads (read (decode image.entry.words.now) (pointer 0 p.base (of_z w64 p.offset))) result }
{
    let n = fields::header_of(image).sizes.n as usize;
    let i = places::index(p, n)?;
    Ok(young_value(image, i))
}

// A negative offset's word is above every length, and so outside the allocation.
fn read_old(image: Formed<'_>, p: Pointer) -> Result<Value, Question>
    ensures { Loads (read (decode image.entry.words.now) (pointer 1 p.base (of_z w64 p.offset))) result }
{
    let offset = p.offset.cast_unsigned();
    let cell = layout::read_elder(image, p.base, offset).ok_or(Question::Access)?;
    Ok(cell_value(cell))
}

// There is no other heap. Inlined, so that the heap for C does not put a value together to take it apart again.
#[inline(always)]
pub fn read_formed(image: Formed<'_>, p: Pointer) -> Result<Value, Question>
    ensures { Loads (read (decode image.entry.words.now) (pointer_of p)) result }
{
    match p.heap {
        0 => read_young(image, p),
        1 => read_old(image, p),
        _ => Err(Question::Access),
    }
}

pub fn read(image: &[u64], p: Pointer) -> Result<Value, Question>
    ensures { LoadsFrom image.now (pointer_of p) result }
{
    image::check(image)?;
    read_formed(Formed { words: image }, p)
}

// The value of a cell that 3 was asked of; its words are stored as they came.
fn value_of(cell: Cell<'_>) -> Value
    ensures { value_cell result ≡ cell_in cell.entry.words.now }
{
    Words::at(cell.words, 0).value()
}

// ---- In the nursery

// What is counted out for the i-th cell: its value, but from the cursor on nothing counts.
fn counted_value(image: Formed<'_>, i: usize) -> Value
    requires { i < (decode image.words.now).size.n }
    ensures { value_cell result ≡ gone_if (ltb i (decode image.entry.words.now).young.cursor) (get_or (decode image.entry.words.now).young.cells i blank) }
{
    if (i as u64) < fields::header_of(image).cursor {
        return young_value(image, i);
    }
    Value::Uninitialized
}

// The cell takes the place of the i-th.
fn store_young(image: &mut [u64], i: usize, cell: Cell<'_>) -> Result<(), Question>
    requires image { Image image.old (decode image.old) }
    requires i_bound { i < (decode image.old).size.n }
    ensures { Leaves (store_young i (cell_in cell.entry.words.now) (decode image.old)) image.old result image.new }
{
    let old = counted_value(Formed { words: image }, i);
    let new = value_of(cell);
    counts::recount(image, 0, old, new)?;
    fields::put_young_cell(image, i, cell);
    Ok(())
}

fn write_young(image: &mut [u64], p: Pointer, cell: Cell<'_>) -> Result<(), Question>
    requires { Image image.old (decode image.old) }
    ensures { Leaves (write (decode image.old) (pointer 0 p.base (of_z w64 p.offset)) (cell_in cell.entry.words.now)) image.old result image.new }
{
    let n = fields::header_of(Formed { words: image }).sizes.n as usize;
    let i = places::index(p, n)?;
    store_young(image, i, cell)
}

// ---- In the elder

// The cell takes the place of the old one at the pointer, which is there.
fn store_old(image: &mut [u64], p: Pointer, old: Value, cell: Cell<'_>) -> Result<(), Question>
    requires image { Image image.old (decode image.old) }
    requires offset_in_bounds { of_z w64 p.offset < length (get_or (decode image.old).old.slots p.base []) }
    requires value { value_cell old ≡ get_or (get_or (decode image.old).old.slots p.base []) (of_z w64 p.offset) blank }
    ensures { Leaves (store_old p.base (get_or (decode image.old).old.slots p.base []) (of_z w64 p.offset) (cell_in cell.entry.words.now) (decode image.old)) image.old result image.new }
{
    let new = value_of(cell);
    counts::recount(image, 1, old, new)?;
    layout::write_elder(image, p.base, p.offset.cast_unsigned(), cell);
    Ok(())
}

fn write_old(image: &mut [u64], p: Pointer, cell: Cell<'_>) -> Result<(), Question>
    requires { Image image.old (decode image.old) }
    ensures { Leaves (write (decode image.old) (pointer 1 p.base (of_z w64 p.offset)) (cell_in cell.entry.words.now)) image.old result image.new }
{
    let old = read_old(Formed { words: image }, p)?;
    store_old(image, p, old, cell)
}

// There is no other heap.
pub fn write_formed(image: &mut [u64], p: Pointer, cell: &[u64]) -> Result<(), Question>
    requires { Image image.old (decode image.old) }
    ensures { on_formed (writes (pointer_of p) cell.now) image.old ≡ stored_outcome result image.new }
{
    if !image::value_ok(cell) {
        return Err(Question::Cells);
    }
    let cell = Cell { words: cell };
    match p.heap {
        0 => write_young(image, p, cell),
        1 => write_old(image, p, cell),
        _ => Err(Question::Access),
    }
}

pub fn write(image: &mut [u64], p: Pointer, cell: &[u64]) -> Result<(), Question>
    ensures { call (writes (pointer_of p) cell.now) image.old ≡ stored_outcome result image.new }
{
    image::check(image)?;
    write_formed(image, p, cell)
}
