// The law of the text form: the reader reads exactly what a text writes.
#![tactic(auto)]

ghost use Rattle.writing.specs.Law.{ReadsWhatIsWritten};

// The reader answers a list exactly where the tokens write it.
#[tactic(auto, using(crate::proofs::Complete::complete, crate::proofs::Sound::sound))]
pub fn reads_what_is_written() -> u8
    ensures { ReadsWhatIsWritten }
{
    0
}
