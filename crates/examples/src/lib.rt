//! Worked examples from the bytes of an input to the line that tells the verdict. The function does
//! nothing; its contract is the table.
#![tactic(auto)]

ghost use Rattle.examples.specs.Table.{WorkedTable};

/// The table of worked examples, computed from the definitions on a chart of 1,024 rows.
pub fn worked_examples()
    ensures { WorkedTable }
{}
