// The translator.
ghost use Rattle.std.specs.Prelude.{◌≡◌, length};
ghost use Rattle.translate.specs.Law.{TranslatesWhatIsWritten};
ghost use Rattle.translate.specs.Translation.{program_of, translation_of, due_for, image_of, left_by, Answers, Parses};

use crate::refusal::Refusal;
use image::write::{Written, write};
use operand::edition::Edition;
use reader::read::{Program, read};
use std::alloc::Global;
use token::token::tokens;

// The items and constants of a text.
fn parse(heap: Global, edition: Edition, text: &[u8]) -> Result<Program, Refusal>
    ensures { Parses (translation_of edition text.now) result }
{
    let tokens = tokens(heap, edition, text)?;
    Ok(read(heap, edition, &tokens, text.len())?)
}

fn write_program(
    edition: Edition,
    program: &Program,
    buffer: &mut [u16],
) -> Result<Written, Refusal>
    ensures answer { Answers result (due_for edition (program_of program.now) (length buffer.old)) }
    ensures left { buffer.new ≡ left_by result (image_of edition (program_of program.now)) buffer.old }
{
    Ok(write(edition, &program.items, &program.constants, buffer)?)
}

// Translates a text: its image stands first in the buffer, and the rest is as before.
// A refusal leaves the whole buffer as it was.
// Allocator and edition are two arguments, as the library's calls take an allocator: a struct of the two would have no other use.
#[tactic(auto, using(crate::proofs::Laws::translated_writes, crate::proofs::Laws::written_translates))]
pub fn translate(
    heap: Global,
    edition: Edition,
    text: &[u8],
    buffer: &mut [u16],
) -> Result<Written, Refusal>
    ensures answer { Answers result (due_for edition (translation_of edition text.now) (length buffer.old)) }
    ensures left { buffer.new ≡ left_by result (image_of edition (translation_of edition text.now)) buffer.old }
    ensures law { TranslatesWhatIsWritten edition text.now }
{
    let program = parse(heap, edition, text)?;
    write_program(edition, &program, buffer)
}
