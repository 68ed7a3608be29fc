// What may come next in a list.
ghost use Rattle.grammar.specs.Capped.{deepest, capped};
ghost use Rattle.grammar.specs.Grammar.{grammar, grammar_step, depth_of, begins, waiting};
ghost use Rattle.std.specs.Prelude.{◌≡◌, ◌<◌};
ghost use Rattle.std.proofs.Common.{rules};

use item::item::Item;
use rule::rule::Rule;

// What a sentence has outside all brackets so far.
#[derive(Clone, Copy, Debug, PartialEq, Eq)]
pub enum Side {
    // one term
    First,
    // terms joined by operators
    Joined,
    // a comparison
    Compared,
}

#[derive(Clone, Copy, Debug, PartialEq, Eq)]
pub enum Grammar {
    // a sentence, call, mark, NOP or the end
    Between,
    // a term, in so many brackets
    Term(usize, Side),
    // what follows a term; whether NOPs stand behind it
    After(usize, Side, bool),
    // what follows an assignment
    Assigned,
    // a block kind
    Named,
    // so many pins, and one more
    Pins(usize),
    // nothing more
    Done,
}

fn wait(left: usize) -> Grammar
    ensures { result ≡ waiting left }
{
    left.checked_sub(1).map_or(Grammar::Between, Grammar::Pins)
}

fn begin(item: Item) -> Option<Grammar>
    ensures { result ≡ begins item }
{
    match item {
        Item::Nop | Item::Mark(_) => Some(Grammar::Between),
        Item::Start(_) => Some(Grammar::Term(0, Side::First)),
        Item::Call(_) => Some(Grammar::Named),
        Item::End => Some(Grammar::Done),
        _ => None,
    }
}

impl Grammar {
    fn depth(self) -> usize
        ensures { result ≡ depth_of self }
    {
        match self {
            Self::Term(depth, _) | Self::After(depth, _, _) => depth,
            _ => 0,
        }
    }

    fn follow(self, item: Item) -> Option<Self>
        requires { depth_of self < deepest }
        ensures { result ≡ grammar_step self item }
    {
        match (self, item) {
            (Self::Between, _) => begin(item),
            (Self::Term(depth, side), Item::Open(_)) => Some(Self::Term(depth + 1, side)),
            (Self::Term(depth, side), Item::Operand(_)) => Some(Self::After(depth, side, false)),
            (Self::After(depth, side, _), Item::Nop) => Some(Self::After(depth, side, true)),
            // a closing bracket: not behind NOPs
            (Self::After(depth, side, false), Item::Close) => Some(Self::After(
                depth.checked_sub(1)?,
                side,
                false,
            )),
            // an operator: beside no comparison, but inside brackets
            (Self::After(0, Side::Compared, _), Item::Operator(_)) => None,
            (Self::After(0, _, _), Item::Operator(_)) => Some(Self::Term(0, Side::Joined)),
            (Self::After(depth, side, _), Item::Operator(_)) => Some(Self::Term(depth, side)),
            // a comparison: outside all brackets, in place of operators
            (Self::After(0, Side::First, _), Item::Compare(_)) => Some(Self::Term(
                0,
                Side::Compared,
            )),
            (Self::After(0, _, _) | Self::Assigned, Item::Assign(_, _)) => Some(Self::Assigned),
            (Self::After(0, _, _) | Self::Assigned, Item::EndIf) => Some(Self::Between),
            (Self::Assigned, Item::Nop) => Some(Self::Assigned),
            (Self::Assigned, _) => begin(item),
            (Self::Named, Item::Kind(block)) => Some(wait(block.pins().len())),
            (Self::Pins(left), Item::Pin(_) | Item::Direct(_)) => Some(wait(left)),
            (_, _) => None,
        }
    }
}

impl Rule for Grammar {
    ghost automaton = { capped deepest depth_of grammar };

    ghost anew = { Prim.search rules };

    ghost opened = { Prim.search rules };

    fn start() -> Self {
        Self::Between
    }

    fn step(self, item: Item) -> Option<Self> {
        if self.depth() < usize::MAX {
            self.follow(item)
        } else {
            None
        }
    }

    fn ends(self) -> bool {
        self == Self::Done
    }
}
