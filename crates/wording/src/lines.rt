//! Lines of a property in words.
ghost use Rattle.std.specs.Prelude.{Some};
ghost use Rattle.wording.specs.Lines.{line_text};

use super::InWords;
use property_sheet::Line;
use std::fmt;

impl fmt::Display for InWords<Line> {
    ghost output = { λ l. Some (line_text l.0) };

    fn fmt<W: fmt::Write>(&self, f: &mut fmt::Formatter<W>) -> fmt::Result {
        match self.0 {
            Line::True => write!(f, "true"),
            Line::False => write!(f, "false"),
            Line::Both(p, q) => write!(f, "line {p} and line {q}"),
            Line::Either(p, q) => write!(f, "line {p} or line {q}"),
            Line::SomeDelay(p) => write!(f, "after some delay line {p}"),
            Line::EveryDelay(p) => write!(f, "after every delay line {p}"),
            Line::SomeAction { action, then } => write!(
                f,
                "after some action {action} line {then}"
            ),
            Line::EveryAction { action, then } => write!(
                f,
                "after every action {action} line {then}"
            ),
            Line::Reset { clock, then } => write!(f, "with clock {clock} reset line {then}"),
            Line::Holds(condition) => write!(f, "{}", InWords(condition)),
        }
    }
}
