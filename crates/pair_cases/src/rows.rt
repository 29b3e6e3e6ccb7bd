//! Rows that a synchroniser takes, and rows that it refuses.
use super::verdicts::Verdict;
use anyhow::anyhow;
use pair::Synchroniser;
use pairing::SyncRow;

macro_rules! row {
    ($left:literal, $right:literal, $result:literal) => {
        SyncRow {
            left: $left,
            right: $right,
            result: $result,
        }
    };
}

pub(crate) use row;

// Tried one after the other.
const TRIED: [SyncRow; 21] = [
    row!(1, 1, 1),
    row!(0, 16, 16),
    row!(16, 0, 1),
    row!(16, 16, 16),
    // a number above 16
    row!(17, 1, 1),
    row!(1, 17, 1),
    row!(1, 2, 17),
    row!(255, 255, 255),
    // both stand still
    row!(0, 0, 1),
    row!(0, 0, 16),
    // nothing comes of it
    row!(1, 2, 0),
    row!(0, 0, 0),
    // taken, for the same action and for another
    row!(1, 1, 1),
    row!(1, 1, 2),
    row!(16, 0, 16),
    // taken, and with a number out of its limit
    row!(1, 1, 0),
    row!(16, 0, 17),
    // the sides the other way round
    row!(16, 1, 2),
    row!(1, 16, 3),
    row!(0, 1, 4),
    row!(1, 0, 5),
];

// Tried when there are 32 rows: a new one, then one that is taken, then some out of their limits.
const TRIED_WHEN_FULL: [SyncRow; 6] = [
    row!(5, 0, 1),
    row!(0, 1, 16),
    row!(4, 7, 1),
    row!(1, 0, 1),
    row!(17, 0, 1),
    row!(4, 7, 0),
];

fn add(synchroniser: &mut Synchroniser, row: SyncRow) -> anyhow::Result<()> {
    synchroniser
        .add(row)
        .map_err(|refusal| anyhow!("a row is refused {}", refusal.number()))
}

/// A synchroniser with these rows.
pub(crate) fn with_rows(rows: &[SyncRow]) -> anyhow::Result<Synchroniser> {
    let mut synchroniser = Synchroniser::new();
    for row in rows {
        add(&mut synchroniser, *row)?;
    }
    Ok(synchroniser)
}

fn print_tries(
    rt: &HostRuntime,
    synchroniser: &mut Synchroniser,
    rows: &[SyncRow],
) -> anyhow::Result<()> {
    for row in rows {
        let verdict = Verdict(synchroniser.add(*row));
        let SyncRow {
            left,
            right,
            result,
        } = *row;
        println!(rt; "row {left} {right} {result}: {verdict}")?;
    }
    Ok(())
}

// The rows that are there, by what comes of all actions up to 17.
fn print_held(rt: &HostRuntime, synchroniser: &Synchroniser) -> anyhow::Result<()> {
    rt.print("held:")?;
    for left in 0..18 {
        for right in 0..18 {
            if let Some(result) = synchroniser.result(left, right) {
                print!(rt; " [{left} {right} {result}]")?;
            }
        }
    }
    rt.println("")?;
    Ok(())
}

// A synchroniser with 32 rows.
fn full() -> anyhow::Result<Synchroniser> {
    let mut synchroniser = Synchroniser::new();
    for i in 0..32 {
        let row = SyncRow {
            left: i / 8 + 1,
            right: i % 8,
            result: i % 16 + 1,
        };
        add(&mut synchroniser, row)?;
    }
    Ok(synchroniser)
}

/// Rows that are tried on a new synchroniser, and on a full one. What is refused changes nothing.
pub(crate) fn print_rows(rt: &HostRuntime) -> anyhow::Result<()> {
    rt.println("a new synchroniser")?;
    let mut synchroniser = Synchroniser::new();
    print_held(rt, &synchroniser)?;
    print_tries(rt, &mut synchroniser, &TRIED)?;
    print_held(rt, &synchroniser)?;
    rt.println("a full synchroniser")?;
    let mut synchroniser = full()?;
    print_held(rt, &synchroniser)?;
    print_tries(rt, &mut synchroniser, &TRIED_WHEN_FULL)?;
    print_held(rt, &synchroniser)
}
