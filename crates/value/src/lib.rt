// Values, and the three words of a cell: kind + 256 × heap, payload, offset.
#![tactic(auto)]

ghost use Rattle.std.specs.Prelude.{◌≡◌, true, [], ◌∷◌, ◌+◌, ◌*◌, ◌/◌, ◌%◌, ◌≤◌, length};
ghost use Rattle.std.specs.Option.{SomeIff};
ghost use Rattle.std.specs.Float.{binary64};
ghost use Rattle.std.specs.Float.Ieee.{of_bits};
ghost use Rattle.model.specs.Records.{plain, cell_words, scalar, valid_plain, valid_words};
ghost use Rattle.value.specs.Value.{kind_number, value_cell, crossing, words_at, Spelled, Decodes};

use question::Question;

// The kinds, by their numbers.
#[derive(Clone, Copy)]
enum Kind {
    Uninitialized = 0,
    Int = 1,
    Bool = 2,
    Float = 3,
    Char = 4,
    Pointer = 5,
}

// Their numbers, to match words by. A `TryFrom<u64>` would write the numbers a second time, and each arm would unwrap its kind.
const UNINITIALIZED: u64 = Kind::Uninitialized as u64;

const INT: u64 = Kind::Int as u64;

const BOOL: u64 = Kind::Bool as u64;

const FLOAT: u64 = Kind::Float as u64;

const CHAR: u64 = Kind::Char as u64;

pub const POINTER: u64 = Kind::Pointer as u64;

// By how much the first words of the two heaps' pointers differ.
pub const HEAP_STEP: u64 = 256;

// The first word of a pointer into the nursery.
const YOUNG: u64 = POINTER;

// The first word of a pointer into the elder generation.
pub const ELDER: u64 = POINTER + HEAP_STEP;

// The heap that a cell with this first word points into, if it is a pointer.
pub fn heap_of(tag: u64) -> Option<u64>
    ensures { SomeIff result (tag % 256 ≡ 5) (tag / 256) }
{
    (tag % HEAP_STEP == POINTER).then_some(tag / HEAP_STEP)
}

// The heap is any u8: a narrower type would ask more of callers.
#[derive(Clone, Copy)]
pub struct Pointer {
    pub heap: u8,
    pub base: u64,
    pub offset: i64,
}

// A Float keeps its 64 bits beside the number: of a NaN the number alone does not tell them. A Char is any u32: a char would ask more
// of callers.
#[derive(Clone, Copy)]
pub enum Value {
    Uninitialized,
    Int(i64),
    Bool(bool),
    Float { number: f64, bits: u64 },
    Char(u32),
    Pointer(Pointer),
}

impl Value {
    // The pointer, if it is one to another heap than `own`.
    #[tactic(auto, unfolding(crate::specs::Value::crossing))]
    pub fn crossing(self, own: u8) -> Option<Pointer>
        ensures { result ≡ crossing own self }
    {
        let Value::Pointer(p) = self else {
            return None;
        };
        (p.heap != own).then_some(p)
    }
}

#[derive(Clone, Copy, PartialEq, Eq)]
pub struct Words {
    pub tag: u64,
    pub payload: u64,
    pub offset: u64,
}

// The number of a Float's bits. `from_bits` is undefined at the bits of a NaN, which lie above those of infinity.
pub fn number(bits: u64) -> f64
    ensures { result ≡ of_bits binary64 bits }
{
    if 0x7FF0_0000_0000_0000 < bits % 0x8000_0000_0000_0000 {
        f64::NAN
    } else {
        f64::from_bits(bits)
    }
}

// Not by `char::from_u32`: of an image with Chars, the check took 2 of 100 instructions more.
fn is_scalar(c: u64) -> bool
    ensures { result ≡ scalar c }
{
    c < 0xD800 || 0xE000 <= c && c < 0x110000
}

#[tactic(auto, unfolding(model::specs::Records::valid_plain))]
fn is_valid_plain(kind: u64, payload: u64) -> bool
    ensures { result ≡ valid_plain kind payload }
{
    match kind {
        UNINITIALIZED => payload == 0,
        INT | FLOAT => true,
        BOOL => payload < 2,
        CHAR => is_scalar(payload),
        _ => false,
    }
}

impl Words {
    // The i-th cell of these words.
    pub fn at(cells: &[u64], i: usize) -> Words
        requires { i * 3 + 3 ≤ length cells.now }
        ensures { result ≡ words_at cells.now (3 * i) }
    {
        let at = 3 * i;
        Words {
            tag: cells[at],
            payload: cells[at + 1],
            offset: cells[at + 2],
        }
    }

    // Question 3 of one cell. An image is asked it of every cell, so the words are tested as they are, and no value is made.
    #[tactic(auto, using(crate::proofs::Spelling::asked, std::proofs::Common::tests))]
    pub fn is_valid(self) -> bool
        ensures { result ≡ valid_words self.tag self.payload self.offset }
    {
        self.tag == YOUNG
            || self.tag == ELDER
            || self.offset == 0 && is_valid_plain(self.tag, self.payload)
    }

    // The value of a valid cell's words.
    #[tactic(auto, using(crate::proofs::Spelling::spells))]
    pub fn value(self) -> Value
        requires { valid_words self.tag self.payload self.offset ≡ true }
        ensures { Spelled self.tag self.payload self.offset result }
    {
        match self.tag {
            UNINITIALIZED => Value::Uninitialized,
            INT => Value::Int(self.payload.cast_signed()),
            BOOL => Value::Bool(self.payload == 1),
            FLOAT => Value::Float {
                number: number(self.payload),
                bits: self.payload,
            },
            CHAR => Value::Char(self.payload as u32),
            _ => Value::Pointer(Pointer {
                heap: (self.tag / HEAP_STEP) as u8,
                base: self.payload,
                offset: self.offset.cast_signed(),
            }),
        }
    }
}

// Three words in their order.
impl From<[u64; 3]> for Words {
    ghost from_gives = { λ ws w. w ≡ words_at ws 0 };

    fn from(words: [u64; 3]) -> Words {
        let [tag, payload, offset] = words;
        Words {
            tag,
            payload,
            offset,
        }
    }
}

// And back.
impl From<Words> for [u64; 3] {
    ghost from_gives = { λ w ws. ws ≡ w.tag ∷ w.payload ∷ w.offset ∷ [] };

    fn from(w: Words) -> [u64; 3] {
        [w.tag, w.payload, w.offset]
    }
}

// The value of any three words, if they are a valid cell's.
impl TryFrom<Words> for Value {
    type Error = Question;

    ghost try_from_gives = { λ w r. Decodes w.tag w.payload w.offset r };

    #[tactic(auto, unfolding(crate::specs::Value::cell_asked))]
    fn try_from(w: Words) -> Result<Value, Question> {
        if !w.is_valid() {
            return Err(Question::Cells);
        }
        Ok(w.value())
    }
}

#[tactic(auto, unfolding(model::specs::Records::cell_words))]
fn plain_words(kind: Kind, payload: u64) -> Words
    ensures { (result.tag ∷ result.payload ∷ result.offset ∷ []) ≡ cell_words (plain (kind_number kind) payload ∷ []) }
{
    Words {
        tag: kind as u64,
        payload,
        offset: 0,
    }
}

// The words of a value.
impl From<Value> for Words {
    ghost from_gives = { λ v w. (w.tag ∷ w.payload ∷ w.offset ∷ []) ≡ cell_words (value_cell v ∷ []) };

    #[tactic(auto, unfolding(crate::specs::Value::value_cell, model::specs::Records::blank, model::specs::Records::cell_words))]
    fn from(v: Value) -> Words {
        match v {
            Value::Uninitialized => plain_words(Kind::Uninitialized, 0),
            Value::Int(x) => plain_words(Kind::Int, x.cast_unsigned()),
            Value::Bool(b) => plain_words(Kind::Bool, u64::from(b)),
            Value::Float { number: _, bits } => plain_words(Kind::Float, bits),
            Value::Char(c) => plain_words(Kind::Char, u64::from(c)),
            Value::Pointer(p) => Words {
                tag: u64::from(p.heap) * HEAP_STEP + POINTER,
                payload: p.base,
                offset: p.offset.cast_unsigned(),
            },
        }
    }
}
