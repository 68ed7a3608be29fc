// Constants of a list, and the two words of a value.
ghost use Rattle.std.specs.Prelude.{◌≡◌};
ghost use Rattle.image.specs.Constants.{bits_32, low_word, high_word};

use operand::kind::Size;
use operand::operand::Operand;

#[derive(Clone, Copy, Debug, PartialEq, Eq)]
pub struct Constant {
    pub operand: Operand,
    pub value: i32,
}

// The 32 bits of a value, in two's complement.
fn bits_of(value: i32) -> u32
    ensures { result ≡ bits_32 value }
{
    value.cast_unsigned()
}

impl Constant {
    pub fn low(self) -> u16
        ensures { result ≡ low_word self }
    {
        (bits_of(self.value) % 0x1_0000) as u16
    }

    // Only a double fills its high word.
    pub fn high(self) -> u16
        ensures { result ≡ high_word self }
    {
        match self.operand.kind.size() {
            Size::Bit | Size::Word => 0,
            Size::Double => (bits_of(self.value) / 0x1_0000) as u16,
        }
    }
}
