//! Values that are written one after the other.
ghost use Rattle.std.specs.Iterator.{IsFinite};
ghost use Rattle.wording.specs.Texts.{WritesEach};

use std::fmt;

/// Writes each item as `{}` does.
pub(crate) fn write_each<W: fmt::Write, T: fmt::Display + Drop, I: Iterator<Item = T>>(
    f: &mut fmt::Formatter<W>,
    items: I,
) -> fmt::Result
    requires can { I.can_next items }
    requires finite { IsFinite (I.remaining items) }
    ensures { WritesEach W.write_str_gives T.output I.next_gives items f.old result f.new }
{
    for item in items {
        write!(f, "{item}")?;
    }
    Ok(())
}
