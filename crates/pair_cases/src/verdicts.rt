//! What comes of a row or of a pair.
use pair::PairRefusal;
use std::fmt;

/// Shown as `accepted`, or as `refused` with the refusal's number.
#[derive(Clone, Copy)]
pub struct Verdict(pub Result<(), PairRefusal>);

impl fmt::Display for Verdict {
    fn fmt<W: fmt::Write>(&self, f: &mut fmt::Formatter<W>) -> fmt::Result {
        match self.0 {
            Ok(()) => f.write_str("accepted"),
            Err(refusal) => {
                let number = refusal.number();
                write!(f, "refused {number}")
            }
        }
    }
}
