//! Conditions in words.
ghost use Rattle.std.specs.Prelude.{Some};
ghost use Rattle.wording.specs.Terms.{relation_text, term_text, condition_text};

use super::InWords;
use device::{Condition, Relation, Term};
use std::fmt;

impl fmt::Display for InWords<Relation> {
    ghost output = { λ r. Some (relation_text r.0) };

    fn fmt<W: fmt::Write>(&self, f: &mut fmt::Formatter<W>) -> fmt::Result {
        f.write_str(match self.0 {
            Relation::Less => "<",
            Relation::AtMost => "<=",
            Relation::Equal => "=",
            Relation::AtLeast => ">=",
            Relation::Greater => ">",
        })
    }
}

impl fmt::Display for InWords<Term> {
    ghost output = { λ t. Some (term_text t.0) };

    fn fmt<W: fmt::Write>(&self, f: &mut fmt::Formatter<W>) -> fmt::Result {
        match self.0 {
            Term::Clock(a) => write!(f, "clock {a}"),
            Term::Difference(a, b) => write!(f, "clock {a} - clock {b}"),
        }
    }
}

impl fmt::Display for InWords<Condition> {
    ghost output = { λ c. Some (condition_text c.0) };

    fn fmt<W: fmt::Write>(&self, f: &mut fmt::Formatter<W>) -> fmt::Result {
        let Condition {
            term,
            relation,
            constant,
        } = self.0;
        write!(f, "{} {} {constant}", InWords(term), InWords(relation))
    }
}
