// The words for a question's number.
ghost use Rattle.std.specs.Prelude.{◌≡◌};
ghost use Rattle.explain.specs.Words.{words_for};

use told::question::Question;

// What the question with that number asks.
pub fn question_words(number: u16) -> &'static str
    ensures { result.now ≡ words_for number }
{
    Question::try_from(number).map_or("", Question::words)
}
