// The figure of a Float: its exact product with 1,000, rounded once to a whole number, as a sign and thousandths; and its text.
#![tactic(auto)]

ghost use Rattle.std.specs.Prelude.{◌≡◌, [], ◌∷◌, ◌+◌, ◌*◌, ◌/◌, ◌%◌, ◌^◌, ◌<◌, ◌≤◌, length};
ghost use Rattle.model.specs.Figure.{rounded, figure_of, figure};
ghost use Rattle.model.specs.Listing.{figure_text};
ghost use Rattle.figure.specs.Answer.{model_figure, figured_answer, limited};
ghost use Rattle.figure.specs.Written.{Room, Writes};

pub mod text;

use question::Question;
use text::Text;

// The sign stands beside the thousandths, as the C interface hands them on. An i64 would hold fewer.
#[derive(Clone, Copy)]
pub struct Figure {
    pub negative: bool,
    pub thousandths: u64,
}

// The most thousandths: 999999.999.
const MOST: u64 = 999999999;

// a / c rounded to a whole number. The rule for a tie stands here alone: of a rest as large as what is missing, the last digit decides.
fn round(a: u64, c: u64) -> u64
    requires { 0 < c }
    ensures { result ≡ rounded a c }
{
    let whole = a / c;
    let rest = a % c;
    let missing = c - rest;
    whole + u64::from(missing < rest + whole % 2)
}

// The thousandfold of q / 2^h, rounded. From 64 on 2^h is no u64, and the thousandfold is below a half.
fn thousandths(q: u64, h: u64) -> u64
    requires { q < 2 ^ 53 }
    ensures { result ≡ rounded (1000 * q) (2 ^ h) }
{
    if 64 <= h {
        return 0;
    }
    round(1000 * q, 1u64 << h)
}

// The limit on the rounded number. Zero has no sign.
fn within_limit(negative: bool, k: u64) -> Result<Figure, Question>
    ensures { figured_answer result ≡ limited negative k }
{
    if MOST < k {
        return Err(Question::Figure);
    }
    Ok(Figure {
        negative: negative && 0 < k,
        thousandths: k,
    })
}

// The exponent field from which on a Float is 2^20 or more in size, infinite or a NaN.
const TOO_LARGE: u64 = 1043;

// A Float is its digits over 2^(SCALE - field); those of the field 0 lack the leading digit, and have the field 1's scale.
const SCALE: u64 = 1075;

// Of a Float's bits: a sign, an exponent field of 11 bits and 52 digits.
pub fn figure_of_bits(bits: u64) -> Result<Figure, Question>
    ensures { figured_answer result ≡ figure bits }
{
    let negative = 0x8000_0000_0000_0000 <= bits;
    let field = bits % 0x8000_0000_0000_0000 / 0x10_0000_0000_0000;
    let digits = bits % 0x10_0000_0000_0000;
    if TOO_LARGE <= field {
        return Err(Question::Figure);
    }
    if field == 0 {
        return within_limit(negative, thousandths(digits, SCALE - 1));
    }
    within_limit(
        negative,
        thousandths(0x10_0000_0000_0000 + digits, SCALE - field),
    )
}

// A NaN is told apart first: it has no one pattern of bits.
pub fn figure_of(x: f64) -> Result<Figure, Question>
    ensures { figured_answer result ≡ figure_of x }
{
    if x.is_nan() {
        return Err(Question::Figure);
    }
    figure_of_bits(f64::to_bits(x))
}

impl Text<'_> {
    // The point and three decimals.
    fn decimals(&mut self, k: u64)
        requires { Room 4 self.old }
        ensures { Writes (0x2E ∷ (48 + k / 100 % 10) ∷ (48 + k / 10 % 10) ∷ (48 + k % 10) ∷ []) self.old self.new }
    {
        self.byte(b'.');
        self.digit(k / 100);
        self.digit(k / 10);
        self.digit(k);
    }

    // The figure with three decimals.
    pub fn figure(&mut self, f: Figure)
        requires { Room 25 self.old }
        ensures { Writes (figure_text (model_figure f)) self.old self.new }
    {
        let k = f.thousandths;
        self.minus(f.negative);
        self.decimal(k / 1000);
        self.decimals(k);
    }
}
