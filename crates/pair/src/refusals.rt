//! Why a row of a synchroniser or a pair is refused.
ghost use Rattle.std.specs.Prelude.{◌≡◌};
ghost use Rattle.pair.specs.Refusals.{number_of};

/// Why a row of a synchroniser or a pair is refused, in the order of checking.
#[derive(Clone, Copy, PartialEq, Eq, Debug)]
pub enum PairRefusal {
    /// A row has a number above 16, two sides that stand still, or no result.
    BadRow = 14,
    /// The synchroniser has a row for these two actions already.
    ActionsTaken = 15,
    /// The synchroniser has 32 rows.
    SynchroniserFull = 16,
    /// The pair would pass a limit of devices.
    PairTooLarge = 17,
}

impl PairRefusal {
    /// The number of this refusal, 14 to 17.
    pub fn number(self) -> u8
        ensures { result ≡ number_of self }
    {
        self as u8
    }
}
