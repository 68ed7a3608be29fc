// What is told of a refusal: the number of the question that got a no, and the place.
#![tactic(auto)]

ghost use Rattle.std.specs.Prelude.{Some};
ghost use Rattle.told.specs.Lines.{refused_line};

use std::fmt;

pub mod question;

#[derive(Clone, Copy, Debug, PartialEq)]
pub struct Told {
    // a number, as it is printed and handed to the firmware
    pub question: u16,
    pub place: usize,
}

impl fmt::Display for Told {
    ghost output = { λ t. Some (refused_line t) };

    fn fmt<W: fmt::Write>(&self, f: &mut fmt::Formatter<W>) -> fmt::Result {
        let question = self.question;
        let place = self.place;
        write!(f, "refused {question} at {place}")
    }
}
