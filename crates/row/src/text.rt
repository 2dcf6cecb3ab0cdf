// The text of a row in the making, written straight into the lent buffer: one step for each byte.
ghost use Rattle.std.specs.Prelude.{◌≡◌, [], ◌∷◌, ◌++◌};
ghost use Rattle.row_reader.specs.Reading.{space};
ghost use Rattle.row.specs.Writing.{line_feed, decimal, signed_decimal};
ghost use Rattle.row.specs.Buffer.{HasRoom, Wrote};

// The buffer, and how many of its bytes are the row's so far.
#[derive(Drop)]
pub struct RowText<'a> {
    out: &'a mut [u8],
    length: usize,
}

// Room is asked for, not tested: every row fits (RowsFit), and a test would bring a refusal that no row has.
impl<'a> RowText<'a> {
    pub fn new(out: &'a mut [u8]) -> RowText<'a>
        ensures same { result.out.ghost_name ≡ out.entry.ghost_name }
        ensures buffer { result.out.now ≡ out.old }
        ensures empty { result.length ≡ 0 }
    {
        RowText { out, length: 0 }
    }

    pub fn length(&self) -> usize
        ensures { result ≡ self.now.length }
    {
        self.length
    }

    pub fn byte(&mut self, b: u8)
        requires { HasRoom (b ∷ []) self.old }
        ensures { Wrote (b ∷ []) self.old self.new }
    {
        self.out[self.length] = b;
        self.length += 1;
    }

    // By hand: the library's copy_from_slice would have the library for C need a name from outside.
    #[tactic(auto, using(crate::proofs::Buffer::room_for_more))]
    pub fn words(&mut self, words: &[u8])
        requires { HasRoom words.now self.old }
        ensures { Wrote words.now self.old self.new }
    {
        for b in words {
            self.byte(*b);
        }
    }

    // One call for each digit, the last one written last. By hand: `write!` may fail by its contract, and the crate
    // `itoa` writes into a buffer of its own first.
    #[tactic(auto, using(crate::proofs::Decimal::numbers))]
    pub fn decimal(&mut self, n: u64)
        requires { HasRoom (decimal n) self.old }
        ensures { Wrote (decimal n) self.old self.new }
    {
        if n < 10 {
            return self.byte(b'0' + n as u8);
        }
        self.decimal(n / 10);
        self.byte(b'0' + (n % 10) as u8);
    }

    // A space, and any number, the least one too.
    #[tactic(auto, using(crate::proofs::Decimal::numbers))]
    pub fn spaced(&mut self, n: i64)
        requires { HasRoom (space ∷ signed_decimal n) self.old }
        ensures { Wrote (space ∷ signed_decimal n) self.old self.new }
    {
        let size = n.unsigned_abs();
        self.byte(b' ');
        if 0 <= n {
            return self.decimal(size);
        }
        self.byte(b'-');
        self.decimal(size);
    }

    // Words, a number and a line feed.
    pub fn numbered(&mut self, words: &[u8], n: u64)
        requires { HasRoom (words.now ++ decimal n ++ line_feed ∷ []) self.old }
        ensures { Wrote (words.now ++ decimal n ++ line_feed ∷ []) self.old self.new }
    {
        self.words(words);
        self.decimal(n);
        self.byte(b'\n');
    }
}
