// A text is cut at its separators.
ghost use Rattle.std.specs.Prelude.{◌≡◌, ◌+◌, ◌<◌, ◌≤◌, length, drop};
ghost use Rattle.std.specs.Iterator.{YieldsFirstBy, item_count};
ghost use Rattle.std.specs.List.{position};
ghost use Rattle.character.specs.Classes.{is_separator};
ghost use Rattle.token.specs.Runs.{run_length, piece_part, parts_left, Begins};

use character::is_separator;

// A part of a text: its bytes, and the place of the first.
#[derive(Clone, Copy)]
pub(crate) struct Piece<'a> {
    pub bytes: &'a [u8],
    pub place: usize,
}

// The parts of a text that begin at or after a place.
#[derive(Clone, Copy)]
pub(crate) struct Parts<'a> {
    pub text: &'a [u8],
    pub from: usize,
}

// The place of the first byte at or after `from` that is no separator. By the places themselves, and not by `position`
// over what is left: that counts beside the places, and a run of blanks took half as long again.
fn part_at(text: &[u8], from: usize) -> Option<usize>
    ensures { Begins text.now from result }
{
    (from..text.len()).find(
        |&place|
            requires { place < length text.now }
        { !is_separator(text[place]) },
    )
}

// The place of the first separator.
fn separator_at(text: &[u8]) -> Option<usize>
    ensures { result ≡ position is_separator text.now }
{
    text.iter().position(|byte| is_separator(*byte))
}

// How many bytes in front are no separators.
#[tactic(auto, using(crate::proofs::Steps::run_is, crate::proofs::Steps::run_fits))]
fn run_length(text: &[u8]) -> usize
    ensures value { result ≡ run_length text.now }
    ensures within { result ≤ length text.now }
{
    separator_at(text).unwrap_or(text.len())
}

// The place where the run of bytes that are no separators ends.
pub fn run_end(text: &[u8], from: usize) -> usize
    ensures value { result ≡ from + run_length (drop from text.now) }
    ensures on { from ≤ result }
    ensures within { from ≤ length text.now → result ≤ length text.now }
{
    from + text.get(from..).map_or(0, run_length)
}

impl<'a> Iterator for Parts<'a> {
    type Item = Piece<'a>;

    ghost can_next = { λ p. p.from ≤ length p.text.now };

    ghost next_gives = { YieldsFirstBy piece_part parts_left };

    ghost remaining = { item_count parts_left };

    fn next(&mut self) -> Option<Piece<'a>> {
        let text = self.text;
        let place = part_at(text, self.from)?;
        self.from = run_end(text, place);
        Some(Piece {
            bytes: &text[place..self.from],
            place,
        })
    }
}
