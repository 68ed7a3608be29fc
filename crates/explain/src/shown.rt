// What stands at the place of a refusal, written into a lent buffer.
ghost use Rattle.explain.specs.Shown.{explanation, item_shown, place_shown, token_shown};
ghost use Rattle.lay.specs.Lays.{Lays, Puts};

use crate::words::question_words;
use decode::items::Items;
use lay::pen::Pen;
use operand::edition::Edition;
use script::Script;
use token::cut::run_end;
use told::Told;

// No more of a token is shown.
const MOST_SHOWN: usize = 60;

fn put_token(pen: &mut Pen, text: &[u8], place: usize)
    ensures { Puts pen.old (token_shown text.now place) pen.new }
{
    if place >= text.len() {
        return pen.put_text("the end of the text");
    }
    let long = run_end(text, place) - place;
    let end = place + long.min(MOST_SHOWN);
    pen.put_bytes(&text[place..end])
}

fn put_shown(pen: &mut Pen, items: &[u16], place: usize)
    ensures { Puts pen.old (item_shown items.now place) pen.new }
{
    let items = Items {
        edition: Edition::Series90,
        words: items,
    };
    if place >= items.len() {
        return pen.put_text("the end of the list");
    }
    match items.get(place) {
        Some(item) => item.put_on(pen),
        None => pen.put_text("an unknown item"),
    }
}

// The refusal, the text and the items are what `explain` is handed, and go from there to here and no further.
fn put_place(pen: &mut Pen, told: Told, text: &[u8], items: &[u16])
    ensures { Puts pen.old (place_shown told text.now items.now) pen.new }
{
    // By number: tried by the typed question, which names nine cases and whose proof did not close.
    match told.question {
        5..=11 => put_shown(pen, items, told.place),
        19..=20 => put_token(pen, text, told.place),
        _ => pen.put_text(""),
    }
}

fn put_explanation(pen: &mut Pen, told: Told, text: &[u8], items: &[u16])
    ensures { Puts pen.old (explanation told text.now items.now) pen.new }
{
    pen.put_text(question_words(told.question));
    pen.put_byte(b'\n');
    put_place(pen, told, text, items);
    pen.put_byte(b'\n');
}

// Writes two lines into the buffer, and tells how long they are: the question in words, and what stands at the
// place in the list's text or among its items.
pub fn explain(told: Told, text: &[u8], items: &[u16], out: &mut [u8]) -> usize
    ensures { Lays out.old 0 (explanation told text.now items.now) out.new result }
{
    let mut pen = Pen::new(out);
    put_explanation(&mut pen, told, text, items);
    pen.at
}
