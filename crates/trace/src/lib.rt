// The list of members of a collection, in lent words, for either heap. It is the model's list, in the same order.
#![tactic(auto)]

ghost use Rattle.std.specs.Prelude.{◌≡◌, [], ◌∷◌, ◌++◌, ℕ, ◌+◌, ◌*◌, ◌/◌, ◌^◌, ◌≤◌, ◌<◌, length, get_or, drop};
ghost use Rattle.model.specs.Lists.{flat, sum, places};
ghost use Rattle.model.specs.Reach.{mem, add, enter, walk};
ghost use Rattle.model.specs.Records.{same_ptr, whole, cells_of, pointers, pointers_to};
ghost use Rattle.model.specs.Barrier.{matches};
ghost use Rattle.model.specs.Heap.{Nursery, Elder};
ghost use Rattle.model.specs.Image.{cut};
ghost use Rattle.model.specs.Nursery.{matched, young_members};
ghost use Rattle.model.specs.Elder.{old_members};
ghost use Rattle.model.specs.Calls.{cells_in};
ghost use Rattle.trace.specs.Words.{ptr_of, ptr_at, members, listed, stored};
ghost use Rattle.trace.specs.Entered.{entries, Becomes, Entered, Room};
ghost use Rattle.trace.specs.Leads.{begins_at, leads_to, Inside};
ghost use Rattle.trace.specs.Traces.{Within, Within-prop, most_members, Traced};

// A pointer as the list has it. Members differ in their bases mostly, and a comparison goes by the order of the fields: the base is first.
#[derive(Clone, Copy, PartialEq, Eq)]
pub struct Member {
    pub base: u64,
    pub offset: u64,
    pub heap: u64,
}

// An entry's three words.
impl From<[u64; 3]> for Member {
    ghost from_gives = { λ e m. ptr_of m ≡ ptr_at e 0 };

    #[tactic(auto, unfolding(crate::specs::Words::ptr_at))]
    fn from(entry: [u64; 3]) -> Member {
        let [heap, base, offset] = entry;
        Member { base, offset, heap }
    }
}

impl Member {
    // The pointer to the first cell of the allocation at the base.
    #[tactic(auto, unfolding(model::specs::Records::whole))]
    pub fn start(heap: u64, base: u64) -> Member
        ensures { ptr_of result ≡ whole heap base }
    {
        Member {
            base,
            offset: 0,
            heap,
        }
    }

    // Entry i.
    #[tactic(auto, unfolding(crate::specs::Words::ptr_at))]
    pub fn at(list: &[u64], i: usize) -> Member
        requires { 3 * i + 2 < length list.now }
        ensures { ptr_of result ≡ ptr_at list.now i }
    {
        let at = 3 * i;
        Member {
            base: list[at + 1],
            offset: list[at + 2],
            heap: list[at],
        }
    }

    // Stores it as entry n.
    pub fn store(self, list: &mut [u64], n: usize)
        requires { 3 * n + 2 < length list.old }
        ensures { list.new ≡ stored list.old n (ptr_of self) }
    {
        let at = 3 * n;
        list[at] = self.heap;
        list[at + 1] = self.base;
        list[at + 2] = self.offset;
    }
}

// Is it among the members, three words each?
pub fn find(members: &[u64], m: Member) -> bool
    ensures { result ≡ mem same_ptr (ptr_of m) (listed members.now) }
{
    let (entries, _) = members.as_chunks::<3>();
    entries.iter().any(|e| m == Member::from(*e))
}

// Does a mask match the base?
pub fn matches(masks: &[u64], base: u64) -> bool
    ensures { result ≡ matches masks.now base }
{
    masks.iter().any(|mask| *mask & base == *mask)
}

// The members while they are entered: the words that are lent for them, and how many there are.
#[derive(Drop)]
struct Members<'a> {
    words: &'a mut [u64],
    count: usize,
}

impl Members<'_> {
    // Entry p.
    fn at(&self, p: usize) -> Member
        requires { 3 * p + 2 < length self.now.words.now }
        ensures { ptr_of result ≡ ptr_at self.now.words.now p }
    {
        Member::at(self.words, p)
    }

    // Enters it at the end unless it is there.
    fn enter(&mut self, m: Member)
        requires { Room self.old (ptr_of m ∷ []) }
        ensures { Entered self.old self.new (ptr_of m ∷ []) }
    {
        let n = self.count;
        // Named: of words that a field lends, nothing but their number is known afterwards.
        let words = &mut *self.words;
        if find(&words[..3 * n], m) {
            return;
        }
        m.store(words, n);
        self.count = n + 1;
    }

    // Enters a root, if it is a pointer, whichever its heap.
    #[tactic(auto, using(crate::proofs::Entering::pieces))]
    fn enter_root(&mut self, cell: [u64; 3])
        requires { Room self.old (pointers (cells_of 1 cell)) }
        ensures { Entered self.old self.new (pointers (cells_of 1 cell)) }
    {
        let [tag, base, offset] = cell;
        // Not by `heap_of`: a root that is none took 11 instructions, not 7.
        if tag % value::HEAP_STEP != value::POINTER {
            return;
        }
        let heap = tag / value::HEAP_STEP;
        self.enter(Member { base, offset, heap });
    }

    // Enters each root pointer.
    fn enter_roots(&mut self, roots: &[u64])
        requires { Room self.old (pointers (cells_in roots.now)) }
        ensures { Entered self.old self.new (pointers (cells_in roots.now)) }
    {
        let (cells, _) = roots.as_chunks::<3>();
        for cell in cells {
            self.enter_root(*cell);
        }
    }

    // Enters (own, base, 0), if there is an allocation at the base, of length len, and a mask matches.
    #[tactic(auto, using(crate::proofs::Entering::pieces))]
    fn enter_base(&mut self, own: u64, base: u64, len: u64, masks: &[u64])
        requires { Room self.old (matched own masks.now (places base (len ∷ []))) }
        ensures { Entered self.old self.new (matched own masks.now (places base (len ∷ []))) }
    {
        if len == 0 || !matches(masks, base) {
            return;
        }
        self.enter(Member::start(own, base));
    }

    // Enters each allocation that a mask matches. Without masks there is none, and the lengths are not gone through.
    fn enter_matched(&mut self, own: u64, lens: &[u64], masks: &[u64])
        requires { Room self.old (matched own masks.now (places 0 lens.now)) }
        ensures { Entered self.old self.new (matched own masks.now (places 0 lens.now)) }
    {
        if masks.is_empty() {
            return;
        }
        for (b, len) in lens.iter().enumerate() {
            self.enter_base(own, b as u64, *len, masks);
        }
    }
}

// The members that a collection of the heap own begins with: all root pointers, then the allocations that a mask matches.
pub fn start(roots: &[u64], lens: &[u64], own: u64, masks: &[u64], list: &mut [u64]) -> usize
    requires { 3 * (length roots.now / 3 + length lens.now) ≤ length list.old }
    ensures { members result list.new ≡ enter same_ptr [] (pointers (cells_in roots.now) ++ matched own masks.now (places 0 lens.now)) }
{
    let mut members = Members {
        words: list,
        count: 0,
    };
    members.enter_roots(roots);
    members.enter_matched(own, lens, masks);
    members.count
}

// The generation that is traced: its heap's number, 0 the nursery and 1 the elder, its lengths and its cells. The number is a word, as
// members and cells have it: an enum would be turned into one for each that is entered.
#[derive(Clone, Copy)]
pub struct Generation<'a> {
    pub own: u64,
    pub lens: &'a [u64],
    pub cells: &'a [u64],
    ghost two: { own < 2 },
    ghost within: { Within own lens.now cells.now } by { Within-prop own lens.now cells.now },
}

impl Generation<'_> {
    // Enters a cell, if it is a pointer to the heap own. Not a root that is filtered: to one heap a single comparison tells a pointer.
    #[tactic(auto, using(crate::proofs::Entering::pieces))]
    fn enter_own(self, cell: [u64; 3], members: &mut Members<'_>)
        requires { Room members.old (pointers_to self.own (cells_of 1 cell)) }
        ensures { Entered members.old members.new (pointers_to self.entry.own (cells_of 1 cell)) }
    {
        let [tag, base, offset] = cell;
        if tag != value::HEAP_STEP * self.own + value::POINTER {
            return;
        }
        let heap = self.own;
        members.enter(Member { base, offset, heap });
    }

    // Enters each pointer to the heap own of the len cells from the from-th.
    fn scan(self, from: usize, len: usize, members: &mut Members<'_>)
        requires len_in_bounds { 3 * (from + len) ≤ length self.cells.now }
        requires room { Room members.old (pointers_to self.own (cells_of len (drop (3 * from) self.cells.now))) }
        ensures { Entered members.old members.new (pointers_to self.entry.own (cells_of len (drop (3 * from) self.entry.cells.now))) }
    {
        let (cells, _) = self.cells[3 * from..3 * (from + len)].as_chunks::<3>();
        for cell in cells {
            self.enter_own(*cell, members);
        }
    }

    // The length of the allocation at b, 0 where there is none.
    fn len_at(self, b: usize) -> usize
        ensures { result ≡ get_or self.entry.lens.now b 0 }
    {
        *self.lens.get(b).unwrap_or(&0) as usize
    }

    // The cell at which the heap's allocation b begins.
    fn begins_at(self, b: usize) -> usize
        requires b_in_bounds { b ≤ length self.lens.now }
        requires b_bound { begins_at self.own self.lens.now b < 2 ^ 64 }
        ensures { result ≡ begins_at self.entry.own self.entry.lens.now b }
    {
        if self.own == 0 {
            return b;
        }
        words::sum(&self.lens[..b])
    }

    // Visits entry p, whichever its heap: enters what the allocation at its base leads to, if there is one.
    fn visit(self, members: &mut Members<'_>, p: usize)
        requires p_lt_count { (p < members.old.count) × (3 * members.old.count ≤ length members.old.words.now) }
        requires room { Room members.old (leads_to self.own self.lens.now self.cells.now (ptr_at members.old.words.now p)) }
        ensures { Entered members.old members.new (leads_to self.entry.own self.entry.lens.now self.entry.cells.now (ptr_at members.old.words.now p)) }
    {
        let b = members.at(p).base as usize;
        let len = self.len_at(b);
        if len == 0 {
            return;
        }
        let from = self.begins_at(b);
        self.scan(from, len, members);
    }

    // Visits every entry, in order, also those that are entered on the way.
    fn walk(self, members: &mut Members<'_>)
        requires { 3 * length (walk same_ptr (leads_to self.own self.lens.now self.cells.now) (length members.old.words.now) 0 (entries members.old)) ≤ length members.old.words.now }
        ensures { Becomes members.old members.new (walk same_ptr (leads_to self.entry.own self.entry.lens.now self.entry.cells.now) (length members.old.words.now) 0 (entries members.old)) }
    {
        let mut p = 0;
        // No `for`: the list grows as it is walked, so its entries are no range or slice.
        while p < members.count {
            self.visit(members, p);
            p += 1;
        }
    }

    // The members of a collection of the heap own: those that it starts with, then what these lead to.
    pub fn list_members(self, roots: &[u64], masks: &[u64], list: &mut [u64]) -> usize
        requires { 3 * (length roots.now / 3 + most_members self.own self.lens.now) ≤ length list.old }
        ensures { Traced self.entry.own self.entry.lens.now self.entry.cells.now (cells_in roots.now) masks.now (members result list.new) }
    {
        let count = start(roots, self.lens, self.own, masks, list);
        let mut members = Members { words: list, count };
        self.walk(&mut members);
        members.count
    }
}
