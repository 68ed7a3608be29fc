// The bytes that a text shows.
ghost use Rattle.std.specs.Prelude.{◌≡◌, ◌<◌, ◌++◌, OnOk};
ghost use Rattle.cases.specs.Escapes.{digit, given, awaited, bytes_of, unescaped};
ghost use Rattle.cases.specs.declared.escape.Escape.TheVariants.{Nothing};

use std::alloc::AllocError;

// What the bytes before ask of the next one.
#[derive(Clone, Copy)]
enum Escape {
    Nothing,
    Letter,
    HighDigit,
    LowDigit(u8),
}

fn digit(b: u8) -> u8
    ensures value { result ≡ digit b }
    ensures low { result < 16 }
{
    match b {
        b'0'..=b'9' => b - b'0',
        b'a'..=b'f' => b - b'a' + 10,
        _ => 0,
    }
}

impl Escape {
    // The byte that `b` completes, if it does.
    fn gives(self, b: u8) -> Option<u8>
        ensures { result ≡ given self b }
    {
        match self {
            Escape::Nothing => (b != b'\\').then_some(b),
            Escape::Letter => match b {
                b'n' => Some(b'\n'),
                b'r' => Some(b'\r'),
                b't' => Some(b'\t'),
                b'x' => None,
                _ => Some(b),
            },
            Escape::HighDigit => None,
            Escape::LowDigit(high) => Some(high.wrapping_mul(16).wrapping_add(digit(b))),
        }
    }

    // What is asked of the byte behind `b`.
    fn after(self, b: u8) -> Escape
        ensures { result ≡ awaited self b }
    {
        match self {
            Escape::Nothing if b == b'\\' => Escape::Letter,
            Escape::Letter if b == b'x' => Escape::HighDigit,
            Escape::HighDigit => Escape::LowDigit(digit(b)),
            _ => Escape::Nothing,
        }
    }
}

// Appends a byte, if there is one.
fn push_some(text: &mut Vec<u8>, byte: Option<u8>) -> Result<(), AllocError>
    ensures { OnOk result (text.new.items ≡ text.old.items ++ bytes_of byte) }
{
    if let Some(byte) = byte {
        text.push(byte)?;
    }
    Ok(())
}

// Appends the bytes that a text shows.
#[tactic(auto, using(crate::proofs::Shown::one_done, crate::proofs::Shown::all_done))]
pub fn append(text: &mut Vec<u8>, shown: &str) -> Result<(), AllocError>
    ensures { OnOk result (text.new.items ≡ text.old.items ++ unescaped Nothing shown.now) }
{
    let mut escape = Escape::Nothing;
    for b in shown.as_bytes() {
        push_some(text, escape.gives(*b))?;
        escape = escape.after(*b);
    }
    Ok(())
}
