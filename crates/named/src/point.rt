// The point that an operand or an item names.
ghost use Rattle.std.specs.Prelude.{◌≡◌, ◌+◌, ◌/◌, ◌<◌, ◌≤◌, true, cond, length, nat_lt, None as None-of};
ghost use Rattle.named.specs.Naming.{at_side, group_point, word_point, operand_point, edition_point, item_point, known_point, point_at};
ghost use Rattle.operand.specs.Codes.{in_range};
ghost use Rattle.operand.specs.declared.edition.Edition.{Edition as AnyEdition};

use decode::items::Items;
use item::item::Item;
use operand::edition::Edition;
use operand::kind::Kind;
use operand::operand::Operand;

// Which word of a point an operand stands in.
#[derive(Clone, Copy, Debug, PartialEq)]
pub enum Side {
    Input,
    Output,
}

#[derive(Clone, Copy, Debug, PartialEq)]
pub struct NamedPoint {
    pub side: Side,
    pub point: u16,
}

// The point of a number below a limit, among those that begin at the first.
fn point_from(side: Side, first: u16, number: u16, limit: u16) -> Option<NamedPoint>
    requires { first + limit ≤ 65535 }
    ensures { result ≡ cond (nat_lt number limit) (at_side side (first + number)) None-of }
{
    (number < limit).then(|| NamedPoint {
        side,
        point: first + number,
    })
}

// Points 0 to 63 are the groups of E and A.
fn group_point(side: Side, group: u8) -> Option<NamedPoint>
    ensures { result ≡ group_point side group }
{
    point_from(side, 0, u16::from(group), 64)
}

// Points 64 to 191 are the places of EW and AW.
fn word_point(side: Side, place: u16) -> Option<NamedPoint>
    ensures { result ≡ word_point side place }
{
    point_from(side, 64, place, 128)
}

fn by_kind(operand: Operand) -> Option<NamedPoint>
    ensures { result ≡ operand_point operand }
{
    match operand.kind {
        Kind::Input => group_point(Side::Input, operand.group),
        Kind::Output => group_point(Side::Output, operand.group),
        Kind::InputWord => word_point(Side::Input, operand.place()),
        Kind::OutputWord => word_point(Side::Output, operand.place()),
        _ => None,
    }
}

// The point that an operand names: inputs by E and EW, outputs by A and AW.
pub fn point_of(operand: Operand) -> Option<NamedPoint>
    ensures value { result ≡ operand_point operand }
    ensures whole { (e : AnyEdition) → in_range e operand ≡ true → result ≡ edition_point operand }
{
    by_kind(operand)
}

fn item_point(item: Item) -> Option<NamedPoint>
    ensures { result ≡ item_point item }
{
    match item {
        Item::Operand(operand) | Item::Assign(_, operand) | Item::Pin(operand) => point_of(operand),
        _ => None,
    }
}

// The point that an item names; one that is not known names none.
pub fn known_point(item: Option<Item>) -> Option<NamedPoint>
    ensures { result ≡ known_point item }
{
    item_point(item?)
}

// The point that the item at a place names. Asked of a place that there is, since its definition tells nothing of others.
pub fn point_at(items: Items, place: usize) -> Option<NamedPoint>
    requires { place < length items.words.now / 2 }
    ensures { result ≡ point_at items.entry.edition items.entry.words.now place }
{
    known_point(items.get(place))
}
