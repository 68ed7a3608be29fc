// What a refusal leaves of a buffer.
ghost use Rattle.std.specs.Prelude.{◌≡◌, true};

use operand::edition::Edition;
use std::alloc::Global;
use translate::translate::translate;

// What stands in the buffer before a translation.
const BEFORE: u16 = 0xBEEF;

// Whether a buffer is as it was if the text is refused: it always is.
pub fn leaves_buffer(heap: Global, text: &[u8]) -> bool
    ensures { result ≡ true }
{
    let mut buffer = [BEFORE; 40];
    let translated = translate(heap, Edition::Series90, text, &mut buffer).is_ok();
    translated || buffer == [BEFORE; 40]
}
