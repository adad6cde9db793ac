// A text that is being written, piece behind piece, with room for the longest one. (An array with its length: there is no heap,
// and the model keeps the two together.)
ghost use Rattle.std.specs.Prelude.{[], ◌∷◌, ◌++◌, ◌≡◌, ◌≤◌, length};
ghost use Rattle.texts.specs.Decimal.{decimal};
ghost use Rattle.listing.specs.Room.{HasRoom};

use std::marker::Model;
use texts::list::Listed;

#[derive(Drop)]
pub struct Text {
    bytes: [u8; Listed::LONGEST],
    len: usize,
}

// Clauses see the bytes that are written so far.
impl Model for Text {
    ghost use Rattle.std.specs.Prelude.{ℕ, List, ◌≤◌, take};

    ghost Value = { List ℕ };

    ghost view = { λ t. take t.len t.bytes };

    ghost invariant = { λ t. t.len ≤ 2144 };
}

impl Text {
    pub fn new() -> Self
        ensures { result ≡ [] }
    {
        Text {
            bytes: [0; Listed::LONGEST],
            len: 0,
        }
    }

    pub fn as_bytes(&self) -> &[u8]
        ensures value { result.now ≡ self.now }
        ensures room { length result.now ≤ 2144 }
    {
        &self.bytes[..self.len]
    }

    // Bytes as they are.
    pub fn word(&mut self, bytes: &[u8])
        requires { HasRoom self.old bytes.now }
        ensures { self.new ≡ self.old ++ bytes.now }
    {
        let end = self.len + bytes.len();
        self.bytes[self.len..end].copy_from_slice(bytes);
        self.len = end;
    }

    // One byte. (Not `word` of one, by which each digit would be a call that copies a slice.)
    fn put(&mut self, byte: u8)
        requires { HasRoom self.old (byte ∷ []) }
        ensures { self.new ≡ self.old ++ (byte ∷ []) }
    {
        self.bytes[self.len] = byte;
        self.len += 1;
    }

    // A number in decimal: what comes before its last digit is the number a tenth as large. By hand and not by `write!`, which
    // would answer an error for the want of room, though room is required here, and whose digits are std's and not those of
    // `decimal`.
    #[tactic(auto, using(crate::proofs::Pieces::digits))]
    fn number(&mut self, x: u64)
        requires { HasRoom self.old (decimal x) }
        ensures { self.new ≡ self.old ++ decimal x }
    {
        if x < 10 {
            self.put(b'0' + x as u8);
            return;
        }
        self.number(x / 10);
        self.put(b'0' + (x % 10) as u8);
    }

    // A number, and the byte that comes after it: a space or a line feed.
    #[tactic(auto, using(crate::proofs::Pieces::pieces))]
    pub fn field(&mut self, x: u64, end: u8)
        requires { HasRoom self.old (decimal x ++ (end ∷ [])) }
        ensures { self.new ≡ self.old ++ (decimal x ++ (end ∷ [])) }
    {
        self.number(x);
        self.put(end);
    }
}
