// Numbers as text. By `Display` a text could fail, which here it can't: the contract of `fmt` does not say that it succeeds where the
// writer does (tried).
ghost use Rattle.std.specs.Prelude.{◌≡◌, cond, [], ◌∷◌, ◌+◌, ◌%◌, length};
ghost use Rattle.std.specs.Int.{w64};
ghost use Rattle.std.proofs.Common.{of_z};
ghost use Rattle.model.specs.Listing.{decimal as decimal_text, spaced as spaced_text, signed as signed_text};
ghost use Rattle.figure.specs.Written.{Room, Writes};

// A place in lent bytes. Each method writes a text there, leaves the rest as it was, and moves the place behind it.
#[derive(Drop)]
pub struct Text<'a> {
    pub out: &'a mut [u8],
    pub at: usize,
}

// How many digits n has.
fn width(n: u64) -> usize
    ensures { result ≡ length (decimal_text n) }
{
    n.max(1).ilog10() as usize + 1
}

impl Text<'_> {
    pub fn byte(&mut self, b: u8)
        requires { Room 1 self.old }
        ensures { Writes (b ∷ []) self.old self.new }
    {
        self.out[self.at] = b;
        self.at += 1;
    }

    // The last digit of n.
    pub fn digit(&mut self, n: u64)
        requires { Room 1 self.old }
        ensures { Writes ((48 + n % 10) ∷ []) self.old self.new }
    {
        self.byte(b'0' + (n % 10) as u8);
    }

    // A minus, if there is to be one.
    pub fn minus(&mut self, negative: bool)
        requires { Room 1 self.old }
        ensures { Writes (cond negative (0x2D ∷ []) []) self.old self.new }
    {
        if negative {
            self.byte(b'-');
        }
    }

    pub fn decimal(&mut self, n: u64)
        requires { Room 20 self.old }
        ensures { Writes (decimal_text n) self.old self.new }
    {
        let end = self.at + width(n);
        itoa::write_digits(n, self.out, end);
        self.at = end;
    }

    // After a space.
    pub fn spaced(&mut self, n: u64)
        requires { Room 21 self.old }
        ensures { Writes (spaced_text (n ∷ [])) self.old self.new }
    {
        self.byte(b' ');
        self.decimal(n);
    }

    pub fn signed(&mut self, x: i64)
        requires { Room 21 self.old }
        ensures { Writes (signed_text (of_z w64 x)) self.old self.new }
    {
        self.minus(x < 0);
        self.decimal(x.unsigned_abs());
    }
}
