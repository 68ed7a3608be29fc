// What a pen puts. Not by `fmt::Write`: what `write!` answers may be an error as far as its contract
// tells, and a listing that fits has none.
ghost use Rattle.std.specs.Prelude.{◌≡◌, [], ◌∷◌, slice_set};
ghost use Rattle.lay.specs.Digits.{two_digits};
ghost use Rattle.lay.specs.Lays.{Puts};

use crate::pen::Pen;
use itoa::{Buffer, Integer};

impl<'a> Pen<'a> {
    pub fn new(out: &'a mut [u8]) -> Pen<'a>
        ensures buffer { result.out.now ≡ out.old }
        ensures lender { result.out.ghost_name ≡ out.entry.ghost_name }
        ensures place { result.at ≡ 0 }
    {
        Pen { out, at: 0 }
    }
}

impl Pen<'_> {
    // Past the end nothing is written. Not by `get_mut`, which would tell nothing of what is written through it.
    fn store(&mut self, byte: u8)
        ensures buffer { self.new.out.now ≡ slice_set self.old.out.now self.old.at byte }
        ensures lender { self.new.out.ghost_name ≡ self.old.out.ghost_name }
        ensures place { self.new.at ≡ self.old.at }
    {
        if self.at < self.out.len() {
            self.out[self.at] = byte;
        }
    }

    pub fn put_byte(&mut self, byte: u8)
        ensures { Puts self.old (byte ∷ []) self.new }
    {
        self.store(byte);
        self.at = self.at.saturating_add(1);
    }

    pub fn put_bytes(&mut self, bytes: &[u8])
        ensures { Puts self.old bytes.now self.new }
    {
        let next = self.at.saturating_add(bytes.len());
        if next > self.out.len() {
            self.at = next;
            return;
        }
        self.out[self.at..next].copy_from_slice(bytes);
        self.at = next;
    }

    pub fn put_text(&mut self, text: &str)
        ensures { Puts self.old text.now self.new }
    {
        self.put_bytes(text.as_bytes());
    }

    pub fn put_number<N: Integer>(&mut self, number: N)
        ensures { Puts self.old (N.Integer.text number) self.new }
    {
        self.put_text(Buffer::new().format(number));
    }

    // A number with two digits at least.
    pub fn put_two(&mut self, number: u8)
        ensures { Puts self.old (two_digits number) self.new }
    {
        if number < 10 {
            self.put_byte(b'0');
            self.put_byte(b'0' + number)
        } else {
            self.put_number(number)
        }
    }
}
