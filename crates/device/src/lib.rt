//! A device with clocks: a timed automaton, known by its meaning and by three kinds of question.
#![tactic(auto)]

ghost use Rattle.std.specs.Prelude.{◌≡◌, if◌then◌else◌, Some, None};
ghost use Rattle.device.specs.Meaning.{Meaning, Lawful, number_of, edge_of, condition_of};
ghost use Rattle.device.specs.Terms.{has_clock, numbers_fit, relation_numbered, renumbered, renumbered_term};

/// How a condition compares: `<`, `<=`, `=`, `>=` and `>`, numbered 0 to 4 in sheets.
#[derive(Clone, Copy, PartialEq, Eq, Debug)]
pub enum Relation {
    Less,
    AtMost,
    Equal,
    AtLeast,
    Greater,
}

/// A number that no relation has.
#[derive(Clone, Copy, PartialEq, Eq, Debug)]
pub struct UnknownRelation(pub u8);

impl TryFrom<u8> for Relation {
    type Error = UnknownRelation;

    ghost try_from_gives = { λ n r. r ≡ relation_numbered n };

    fn try_from(number: u8) -> Result<Relation, UnknownRelation> {
        match number {
            0 => Ok(Relation::Less),
            1 => Ok(Relation::AtMost),
            2 => Ok(Relation::Equal),
            3 => Ok(Relation::AtLeast),
            4 => Ok(Relation::Greater),
            _ => Err(UnknownRelation(number)),
        }
    }
}

/// What a condition compares with its constant: a clock, or the first clock minus the second.
#[derive(Clone, Copy, PartialEq, Eq, Debug)]
pub enum Term {
    Clock(u8),
    Difference(u8, u8),
}

impl Term {
    // The same term with this added to the number of each clock.
    fn renumbered(self, by: u8) -> Option<Term>
        ensures { result ≡ (if numbers_fit by self then Some (renumbered_term by self) else None) }
    {
        match self {
            Term::Clock(a) => Some(Term::Clock(by.checked_add(a)?)),
            Term::Difference(a, b) => {
                Some(Term::Difference(by.checked_add(a)?, by.checked_add(b)?))
            }
        }
    }
}

/// A comparison of a clock, or of a difference of two clocks, with a whole constant.
#[derive(Clone, Copy, PartialEq, Eq, Debug)]
pub struct Condition {
    pub term: Term,
    pub relation: Relation,
    pub constant: i8,
}

impl Condition {
    /// The same condition over clocks that come after `by` others; none if a clock's number would
    /// pass 255.
    pub fn renumbered(self, by: u8) -> Option<Condition>
        ensures { result ≡ (if numbers_fit by self.term then Some (renumbered by self) else None) }
    {
        Some(Condition {
            term: self.term.renumbered(by)?,
            ..self
        })
    }
}

/// A set of clocks, by bits: clock c is in it if bit c is 1.
#[derive(Clone, Copy, PartialEq, Eq, Debug)]
pub struct ClockSet {
    pub bits: u8,
}

impl ClockSet {
    /// Whether the clock is in the set.
    pub fn contains(self, clock: u8) -> bool
        ensures { result ≡ has_clock self.bits clock }
    {
        clock < 8 && (self.bits >> clock) % 2 == 1
    }
}

/// An edge as a device tells it: its ends, its action, the clocks that it resets, and how many
/// conditions its guard has.
#[derive(Clone, Copy, PartialEq, Eq, Debug)]
pub struct Edge {
    pub source: u16,
    pub target: u16,
    pub action: u8,
    pub resets: ClockSet,
    pub conditions: u8,
}

/// One of the six numbers of a device.
#[derive(Clone, Copy, PartialEq, Eq, Debug)]
pub enum Number {
    /// How many nodes there are.
    Nodes,
    /// The node to start at.
    Start,
    /// How many clocks there are.
    Clocks,
    /// The largest constant of a condition.
    LargestConstant,
    /// The most conditions that one guard can have.
    MostConditions,
    /// How many edge numbers there are, absent ones among them.
    EdgeNumbers,
}

/// A timed automaton, by what it means. Each answer is the meaning's, and asking changes nothing.
pub trait Device {
    ghost meaning: { Self → Meaning };

    ghost lawful: { (x : Self) → Lawful (meaning x) };

    /// One of the six numbers.
    fn number(&self, which: Number) -> u32
        ensures { result ≡ number_of (meaning self.now) which };

    /// The edge with this number; none if the number is absent or past the count.
    fn edge(&self, number: u32) -> Option<Edge>
        ensures { result ≡ edge_of (meaning self.now) number };

    /// The condition at this place of an edge's guard; none if there is no such edge or place.
    fn condition(&self, number: u32, place: u32) -> Option<Condition>
        ensures { result ≡ condition_of (meaning self.now) number place };
}
