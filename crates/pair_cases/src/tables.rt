//! Pairs of two tables in words.
use super::rows::{row, with_rows};
use super::sheets::{DOOR, LAMP, NOTHING, table_of};
use super::verdicts::Verdict;
use device::Device;
use pair::{Pair, Synchroniser};
use pairing::SyncRow;
use wording::device_text;

// The sheets of two tables, and the rows that they go together by.
#[derive(Clone, Copy)]
struct Case {
    title: &'static str,
    left: &'static [u8],
    right: &'static [u8],
    rows: &'static [SyncRow],
}

const CASES: [Case; 9] = [
    Case {
        title: "door and lamp",
        left: &DOOR,
        right: &LAMP,
        rows: &[
            row!(1, 1, 5),
            row!(2, 0, 6),
            row!(0, 3, 7),
            row!(2, 3, 8),
            row!(2, 16, 16),
        ],
    },
    Case {
        title: "lamp and door",
        left: &LAMP,
        right: &DOOR,
        rows: &[row!(1, 1, 5), row!(3, 0, 1), row!(0, 2, 2), row!(16, 2, 3)],
    },
    Case {
        title: "door and door",
        left: &DOOR,
        right: &DOOR,
        rows: &[row!(1, 2, 1), row!(2, 1, 2), row!(2, 2, 3)],
    },
    Case {
        title: "door stands still, lamp moves",
        left: &DOOR,
        right: &LAMP,
        rows: &[row!(0, 1, 1), row!(0, 3, 3), row!(0, 16, 16)],
    },
    Case {
        title: "door moves, lamp stands still",
        left: &DOOR,
        right: &LAMP,
        rows: &[row!(1, 0, 1), row!(2, 0, 2)],
    },
    Case {
        title: "door and lamp, no rows",
        left: &DOOR,
        right: &LAMP,
        rows: &[],
    },
    Case {
        title: "nothing and lamp",
        left: &NOTHING,
        right: &LAMP,
        rows: &[row!(0, 1, 1), row!(0, 3, 2), row!(1, 16, 3)],
    },
    Case {
        title: "door and nothing",
        left: &DOOR,
        right: &NOTHING,
        rows: &[row!(1, 0, 1), row!(2, 0, 2), row!(1, 1, 3)],
    },
    Case {
        title: "nothing and nothing",
        left: &NOTHING,
        right: &NOTHING,
        rows: &[row!(1, 1, 1), row!(1, 0, 2), row!(0, 1, 3)],
    },
];

fn print_text<D: Device>(rt: &HostRuntime, device: &D) -> anyhow::Result<()> {
    let text = device_text(rt.alloc(), device)?;
    rt.print(text.as_str())?;
    Ok(())
}

/// Whether the pair of two devices fits, and the pair in words.
pub(crate) fn print_pair<L: Device + Drop, R: Device + Drop>(
    rt: &HostRuntime,
    title: &str,
    left: L,
    right: R,
    synchroniser: Synchroniser,
) -> anyhow::Result<()> {
    let pair = Pair::new(left, right, synchroniser);
    let verdict = Verdict(pair.fits());
    println!(rt; "{title}: {verdict}")?;
    print_text(rt, &pair)
}

fn print_case(rt: &HostRuntime, case: &Case) -> anyhow::Result<()> {
    print_pair(
        rt,
        case.title,
        table_of(case.left),
        table_of(case.right),
        with_rows(case.rows)?,
    )
}

/// The text of each pair.
pub(crate) fn print_tables(rt: &HostRuntime) -> anyhow::Result<()> {
    for case in &CASES {
        print_case(rt, case)?;
    }
    Ok(())
}
