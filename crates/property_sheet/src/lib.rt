//! The lines of a property, and what a property sheet means.
#![tactic(auto)]

ghost use Rattle.property_sheet.specs.Kinds.{KindNumbered};

use device::Condition;

/// What a line says: the ten kinds of line, numbered 0 to 9 in sheets.
#[derive(Clone, Copy, PartialEq, Eq, Debug)]
pub enum LineKind {
    True,
    False,
    Both,
    Either,
    SomeDelay,
    EveryDelay,
    SomeAction,
    EveryAction,
    Reset,
    Holds,
}

/// A number that no kind of line has.
#[derive(Clone, Copy, PartialEq, Eq, Debug)]
pub struct UnknownLineKind(pub u8);

impl TryFrom<u8> for LineKind {
    type Error = UnknownLineKind;

    ghost try_from_gives = { KindNumbered };

    fn try_from(number: u8) -> Result<LineKind, UnknownLineKind> {
        match number {
            0 => Ok(LineKind::True),
            1 => Ok(LineKind::False),
            2 => Ok(LineKind::Both),
            3 => Ok(LineKind::Either),
            4 => Ok(LineKind::SomeDelay),
            5 => Ok(LineKind::EveryDelay),
            6 => Ok(LineKind::SomeAction),
            7 => Ok(LineKind::EveryAction),
            8 => Ok(LineKind::Reset),
            9 => Ok(LineKind::Holds),
            _ => Err(UnknownLineKind(number)),
        }
    }
}

/// One line of a property. Numbers of lines are operands of others; a line may name any line.
#[derive(Clone, Copy, PartialEq, Eq, Debug)]
pub enum Line {
    /// Always holds.
    True,
    /// Never holds.
    False,
    /// Both lines hold.
    Both(u8, u8),
    /// One of the lines holds.
    Either(u8, u8),
    /// The line holds after some delay.
    SomeDelay(u8),
    /// The line holds after every delay.
    EveryDelay(u8),
    /// The line holds after some open edge of the action.
    SomeAction { action: u8, then: u8 },
    /// The line holds after every open edge of the action.
    EveryAction { action: u8, then: u8 },
    /// The line holds with this clock of the property reset.
    Reset { clock: u8, then: u8 },
    /// The condition holds of the property's clocks.
    Holds(Condition),
}
