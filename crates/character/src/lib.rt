// The classes of the characters in a list's text.
#![tactic(auto)]

ghost use Rattle.std.specs.Prelude.{◌≡◌};
ghost use Rattle.character.specs.Classes.{class_of, is_digit, is_comma, is_separator};

#[derive(Clone, Copy, Debug, PartialEq, Eq)]
pub enum Class {
    Digit,
    Comma,
    Sign,
    Letter,
    Separator,
}

pub fn class_of(c: char) -> Class
    ensures { result ≡ class_of c }
{
    match c {
        '0'..='9' => Class::Digit,
        ',' => Class::Comma,
        'A'..='Z' | 'a'..='z' => Class::Letter,
        ' ' | '\t' | '\n' | '\r' => Class::Separator,
        _ => Class::Sign,
    }
}

// Three names for one comparison: a parameter for the class would only move the class to each caller.
pub fn is_digit(byte: u8) -> bool
    ensures { result ≡ is_digit byte }
{
    class_of(char::from(byte)) == Class::Digit
}

pub fn is_comma(byte: u8) -> bool
    ensures { result ≡ is_comma byte }
{
    class_of(char::from(byte)) == Class::Comma
}

pub fn is_separator(byte: u8) -> bool
    ensures { result ≡ is_separator byte }
{
    class_of(char::from(byte)) == Class::Separator
}
