// The elder generation's slots, packed in base order, in an image's words.
//
// A reading function takes the lengths and the cells' words as two slices. What writes is a method of `Slots`, and promises what
// becomes of all the words that are lent.
#![tactic(auto)]

ghost use Rattle.std.specs.Prelude.{◌≡◌, true, [], map, ◌+◌, ◌-◌, ◌*◌, ◌^◌, ◌≤◌, ◌<◌, length, get_or, take, set, replicate};
ghost use Rattle.model.specs.Lists.{keep_if, flat, places, sum};
ghost use Rattle.model.specs.Records.{ref, blank, cell_words, whole_cells};
ghost use Rattle.model.specs.Heap.{in_use};
ghost use Rattle.model.specs.Elder.{keeps, keep};
ghost use Rattle.model.specs.Collector.{moved_to, holds, swap_cell};
ghost use Rattle.model.specs.Calls.{cells_in};
ghost use Rattle.trace.specs.Words.{listed};
ghost use Rattle.value.specs.Value.{value_cell};
ghost use Rattle.words.specs.Source.{cells_from, count_of};
ghost use Rattle.slots.specs.Slots.{Packed, slots_of, slots_in, ElderIn, Same, ChangedIn, read_old, ReadBy, written, stepped, stepped_to, move_of};

use trace::Member;
use value::{Pointer, Value, Words};
use words::cells::Cell;
use words::{Hole, Source};

// The elder's slots in words that are lent: s lengths, other words up to `at`, the cells' words.
#[derive(Drop)]
pub struct Slots<'a> {
    pub words: &'a mut [u64],
    pub s: usize,
    pub at: usize,
}

impl Slots<'_> {
    // The lengths.
    #[tactic(auto, using(crate::proofs::Counts::counts))]
    fn lens(&self) -> &[u64]
        requires { ElderIn self.now }
        ensures { result.now ≡ take self.now.s self.now.words.now }
    {
        &self.words[..self.s]
    }
}

// ---- Lengths

// The number of allocations.
#[tactic(auto, using(crate::proofs::Counts::counts))]
pub fn held(lens: &[u64]) -> usize
    ensures { result ≡ length (places 0 lens.now) }
{
    // Not `filter` and `count`: they take 28 µs for 8,192 lengths, this loop 2 to 3.
    let mut n: usize = 0;
    for len in lens {
        if 0 < *len {
            n += 1;
        }
    }
    n
}

// ---- A cell is read or written

// The cell at (base, offset), if there is one.
#[tactic(auto, using(crate::proofs::Counts::counts))]
pub fn read_old(lens: &[u64], cells: &[u64], base: u64, offset: u64) -> Option<Words>
    requires { Packed lens.now cells.now (slots_of lens.now cells.now) }
    ensures { ReadBy (read_old (slots_of lens.now cells.now) base offset) result }
{
    let b = base as usize;
    if *lens.get(b)? <= offset {
        return None;
    }
    Some(Words::at(cells, words::sum(&lens[..b]) + offset as usize))
}

impl Slots<'_> {
    // The cell takes the place of the one at (b, o).
    #[tactic(auto, using(crate::proofs::Writes::writes, crate::proofs::Counts::counts))]
    pub fn write(&mut self, b: usize, o: usize, cell: Cell<'_>)
        requires elder { ElderIn self.old }
        requires o_in_bounds { o < length (get_or (slots_in self.old) b []) }
        ensures { ChangedIn self.old self.new (written b o cell.entry.words.now (slots_in self.old)) }
    {
        let at = self.at;
        let i = words::sum(&self.lens()[..b]) + o;
        words::copy_words(&mut self.words[at..], 3 * i, cell.words);
    }
}

// ---- Cells that hold a pointer are changed; the words may be those of any valid cells

// A moved pointer, (heap, base, offset), and the new base: it becomes (1, new, 0).
#[derive(Clone, Copy)]
pub struct Move {
    pub heap: u8,
    pub base: u64,
    pub offset: u64,
    pub new: u64,
}

impl Move {
    // The value of a cell that holds the pointer.
    #[tactic(auto, using(crate::proofs::Swaps::moves))]
    pub fn was(self) -> Value
        ensures { value_cell result ≡ ref (move_of self).0 }
    {
        Value::Pointer(Pointer {
            heap: self.heap,
            base: self.base,
            offset: self.offset.cast_signed(),
        })
    }

    // And what it becomes.
    #[tactic(auto, unfolding(model::specs::Collector::moved_to, model::specs::Records::whole, value::specs::Value::value_cell))]
    pub fn becomes(self) -> Value
        ensures { value_cell result ≡ ref (moved_to (move_of self)) }
    {
        Value::Pointer(Pointer {
            heap: 1,
            base: self.new,
            offset: 0,
        })
    }
}

// The i-th cell becomes (1, new, 0) if it is the pointer. Answers whether it was. A heap above 1 stands in no valid cell.
pub fn swap_at(cells: &mut [u64], i: usize, moved: Move) -> bool
    requires { (i * 3 + 2 < length cells.old) × (whole_cells cells.old ≡ true) }
    ensures cells_after { cells.new ≡ cell_words (set (cells_in cells.old) i (swap_cell (move_of moved) (get_or (cells_in cells.old) i blank))) }
    ensures value { result ≡ holds (move_of moved).0 (get_or (cells_in cells.old) i blank) }
{
    let was = Words::from(moved.was());
    // The first word first, which tells most cells: without that test an alloc that moves takes twice the instructions.
    if cells[3 * i] != was.tag || Words::at(cells, i) != was {
        return false;
    }
    let words: [u64; 3] = Words::from(moved.becomes()).into();
    words::copy_words(cells, 3 * i, &words);
    true
}

// The same of all cells. Answers how many there were: each counts in a barrier.
#[tactic(auto, using(crate::proofs::Swaps::swaps))]
pub fn swap_cells(cells: &mut [u64], moved: Move) -> usize
    requires { whole_cells cells.old ≡ true }
    ensures cells_after { cells.new ≡ cell_words (map (swap_cell (move_of moved)) (cells_in cells.old)) }
    ensures value { result ≡ length (keep_if (holds (move_of moved).0) (cells_in cells.old)) }
{
    let mut hits: usize = 0;
    // By index: nothing is known of the words once what `as_chunks_mut` lends of them has ended.
    for i in 0..cells.len() / 3 {
        if swap_at(cells, i, moved) {
            hits += 1;
        }
    }
    hits
}

impl Slots<'_> {
    // The same of every cell of the elder.
    #[tactic(auto, using(crate::proofs::Swapped::swapped, crate::proofs::Counts::counts))]
    pub fn swap(&mut self, moved: Move) -> usize
        requires { ElderIn self.old }
        ensures changed { ChangedIn self.old self.new (map (map (swap_cell (move_of moved))) (slots_in self.old)) }
        ensures value { result ≡ length (keep_if (holds (move_of moved).0) (flat (slots_in self.old))) }
    {
        let at = self.at;
        let end = at + 3 * words::sum(self.lens());
        swap_cells(&mut self.words[at..end], moved)
    }
}

// ---- Cells are placed

// The words of the allocation at b.
#[tactic(auto, using(crate::proofs::Counts::counts))]
fn hole_of(lens: &[u64], b: usize) -> Hole
    requires { (b < length lens.now) × (sum lens.now * 3 < 2 ^ 64) }
    ensures { (result.at ≡ sum (take b lens.now) * 3) × (result.old ≡ get_or lens.now b 0 * 3) × (result.used ≡ sum lens.now * 3) }
{
    let at = words::sum(&lens[..b]);
    let old = lens[b] as usize;
    let used = words::sum(lens);
    Hole {
        at: 3 * at,
        old: 3 * old,
        used: 3 * used,
    }
}

impl Slots<'_> {
    // These cells at base b. An allocation that is there is replaced, and its room used again.
    #[tactic(auto, using(crate::proofs::Places::placed, crate::proofs::Counts::counts))]
    pub fn place(&mut self, b: usize, src: Source<'_>)
        requires elder { ElderIn self.old }
        requires b_lt_s { b < self.old.s }
        requires src_in_bounds { (in_use (set (slots_in self.old) b []) + count_of src) * 3 ≤ length self.old.words.now - self.old.at }
        ensures { ChangedIn self.old self.new (set (slots_in self.old) b (cells_from src.entry)) }
    {
        let at = self.at;
        let hole = hole_of(self.lens(), b);
        words::splice(&mut self.words[at..], hole, src.words());
        self.words[b] = src.count() as u64;
    }
}

// ---- What is no member is dropped

// How many of the cells' words are read, and how many of them are kept.
#[derive(Clone, Copy)]
struct Ends {
    src: usize,
    dst: usize,
}

impl Slots<'_> {
    // Keeps or drops the allocation at b. A base without one costs no search.
    #[tactic(auto, using(crate::proofs::Packs::packs))]
    fn pack_one(&mut self, b: usize, ends: Ends, members: &[u64]) -> Ends
        requires b_lt_at { (b < self.old.at) × (self.old.at ≤ length self.old.words.now) }
        requires dst_le_src { (ends.dst ≤ ends.src) × (ends.src + get_or self.old.words.now b 0 * 3 ≤ length self.old.words.now - self.old.at) }
        ensures words_after { self.new.words.now ≡ stepped (keeps (listed members.now) b) self.old.at b ends.src ends.dst (get_or self.old.words.now b 0 * 3) self.old.words.now }
        ensures src_value { (result.src ≡ ends.src + get_or self.old.words.now b 0 * 3) × (result.dst ≡ stepped_to (keeps (listed members.now) b) ends.dst (get_or self.old.words.now b 0 * 3)) }
        ensures same { Same self.old self.new }
    {
        let at = self.at;
        let n = 3 * self.words[b] as usize;
        let Ends { src, dst } = ends;
        if n == 0 {
            return ends;
        }
        if trace::find(members, Member::start(1, b as u64)) {
            words::move_words(&mut self.words[at..], dst, src, n);
            return Ends {
                src: src + n,
                dst: dst + n,
            };
        }
        self.words[b] = 0;
        Ends { src: src + n, dst }
    }

    // Keeps the allocations whose pointers are among the members, packed.
    #[tactic(auto, using(crate::proofs::Packs::packs))]
    pub fn pack(&mut self, members: &[u64])
        requires { ElderIn self.old }
        ensures { ChangedIn self.old self.new (keep (listed members.now) 0 (slots_in self.old)) }
    {
        let (s, at) = (self.s, self.at);
        let mut ends = Ends { src: 0, dst: 0 };
        // By index: the lengths are written, and the cells stand in the same words.
        for b in 0..s {
            ends = self.pack_one(b, ends, members);
        }
        let dst = ends.dst;
        let freed = ends.src - dst;
        words::zero_words(&mut self.words[at..], dst, freed);
    }
}
