// Text put together from pieces, byte strings and numbers in decimal: in lent bytes, or in a line, which has bytes of its own. Every
// function is total: a piece that does not fit is left out.
#![tactic(auto)]

// How many bytes a line holds.
pub const ROOM: usize = 256;

// What text is put into: bytes, of which the first are text so far. It is no `fmt::Write`, which cannot say that a piece is left out and
// that those behind it are put.
pub trait Text {
    ghost use Rattle.std.specs.Prelude.{◌≡◌};
    ghost use Rattle.line.specs.Text.{Buffer, put, decimal_of};

    // The bytes, how many of them are text, and whose bytes they are.
    ghost buffer: { Self → Buffer };

    // A piece put behind the text; left out where it does not fit.
    fn text(&mut self, s: &[u8])
        ensures { buffer self.new ≡ put (buffer self.old) s.now };

    // A number in decimal, put behind the text. Its digits are made from the last one on. The place is counted by hand: an iterator
    // over the digits would need it as well, to hand on those from the first one on.
    fn number(&mut self, n: u64)
        ensures { buffer self.new ≡ put (buffer self.old) (decimal_of n) }
    {
        let mut digits = [0u8; 20];
        let mut rest = n;
        let mut i = 19;
        while rest >= 10 {
            digits[i] = 48 + (rest % 10) as u8;
            rest /= 10;
            i -= 1;
        }
        digits[i] = 48 + rest as u8;
        self.text(&digits[i..])
    }
}

// Lent bytes, of which the first `len` are text so far. There is no heap, and `Line`, of which any length is answered, puts its text by it: so
// no invariant narrows the length.
#[derive(Drop)]
pub struct Lent<'a> {
    pub bytes: &'a mut [u8],
    pub len: usize,
}

impl Text for Lent<'_> {
    ghost use Rattle.line.specs.Text.{buffer};

    ghost buffer = { λ t. buffer t.bytes.ghost_name t.bytes.now t.len };

    #[tactic(auto, using(crate::proofs::Lines::put_out))]
    fn text(&mut self, s: &[u8]) {
        if self.len <= self.bytes.len() {
            if s.len() <= self.bytes.len() - self.len {
                let end = self.len + s.len();
                self.bytes[self.len..end].copy_from_slice(s);
                self.len = end;
            }
        }
    }
}

// A line of text: the first `len` of its bytes, all of them where `len` is past their end. There is no heap, and so they are an array; any
// length is answered, and so no invariant narrows it.
// Two lines of one text may differ in the bytes behind it, so that a derived `==` would tell no equality of texts; hence no other derive.
#[derive(Clone, Copy)]
pub struct Line {
    pub bytes: [u8; ROOM],
    pub len: usize,
}

impl Line {
    ghost use Rattle.std.specs.Prelude.{◌≡◌, []};
    ghost use Rattle.line.specs.Text.{text_of};

    // The empty line.
    pub fn new() -> Line
        ensures { text_of result ≡ [] }
    {
        Line {
            bytes: [0; ROOM],
            len: 0,
        }
    }

    // The text.
    pub fn as_bytes(&self) -> &[u8]
        ensures { result.now ≡ text_of self.now }
    {
        &self.bytes[..self.len.min(ROOM)]
    }
}

impl Text for Line {
    ghost use Rattle.line.specs.Text.{buffer};

    // Its bytes are its own, and no one lends them.
    ghost buffer = { λ t. buffer 0 t.bytes t.len };

    #[tactic(auto, using(crate::proofs::Lines::put_lender))]
    fn text(&mut self, s: &[u8]) {
        let mut lent = Lent {
            bytes: &mut self.bytes,
            len: self.len,
        };
        lent.text(s);
        self.len = lent.len;
    }
}
