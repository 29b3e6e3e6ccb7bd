//! Satisfiability relations that no test need tell: they hold no more than those that a test tells.
ghost use Rattle.std.specs.Prelude.{ℕ};
ghost use Rattle.device.specs.Meaning.{Meaning, Lawful};
ghost use Rattle.property_sheet.specs.Contents.{Content, ContentLawful};
ghost use Rattle.region.specs.TimedSteps.{State};
ghost use Rattle.semantics.specs.Frames.{line_of, Satisfiability};
ghost use Rattle.semantics.specs.RationalTime.{rational_time};
ghost use Rattle.semantics.specs.Places.{Place, places, place_of};
ghost use Rattle.naming.specs.Decisions.{HeldByTests};

// Kept: two public traits, one for each frame. A frame carries the type of its points, so one trait
// over both would carry a frame, and the premise that it is one of these two.

/// A satisfiability relation over rational time, of a device and a property.
pub trait TimeRelation {
    ghost device: { Meaning };

    ghost property: { Content };

    ghost holds: { State → ℕ → Type 0 };

    ghost closed: { Satisfiability (rational_time device) (line_of property) holds };
}

/// A satisfiability relation over places, of a device and a property.
pub trait PlaceRelation {
    ghost device: { Meaning };

    ghost property: { Content };

    ghost holds: { Place → ℕ → Type 0 };

    ghost closed: { Satisfiability (places device property) (line_of property) holds };
}

/// Of a lawful device and property, every state that the relation holds with a line is held with it
/// by a relation over rational time that a test tells, its place is by one over places, and it is
/// not refuted.
pub fn held_in_time<R: TimeRelation>()
    ensures { let m = R.TimeRelation.device in let s = R.TimeRelation.property in Lawful m → ContentLawful s → (x : State) (l : ℕ) → R.TimeRelation.holds x l → HeldByTests m s x l }
{}

/// The same of every state whose place the relation holds with a line.
pub fn held_at_places<R: PlaceRelation>()
    ensures { let m = R.PlaceRelation.device in let s = R.PlaceRelation.property in Lawful m → ContentLawful s → (x : State) (l : ℕ) → R.PlaceRelation.holds (place_of m s x) l → HeldByTests m s x l }
{}
