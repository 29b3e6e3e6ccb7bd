//! Pairs of pairs in words.
use super::rows::{row, with_rows};
use super::sheets::{BELL, DOOR, LAMP, table_of};
use super::tables::print_pair;
use pair::Pair;
use pairing::SyncRow;
use table::Table;

const DOOR_BELL: [SyncRow; 3] = [row!(1, 1, 3), row!(2, 0, 2), row!(0, 1, 4)];

const THEN_BELL: [SyncRow; 4] = [row!(3, 1, 5), row!(2, 0, 2), row!(4, 0, 4), row!(0, 1, 6)];

const BELL_FIRST: [SyncRow; 4] = [row!(1, 3, 5), row!(0, 2, 2), row!(0, 4, 4), row!(1, 0, 6)];

const TWO_BELLS: [SyncRow; 3] = [row!(1, 1, 1), row!(1, 0, 2), row!(0, 1, 3)];

const FOUR_BELLS: [SyncRow; 4] = [row!(1, 1, 1), row!(2, 3, 2), row!(3, 0, 3), row!(0, 2, 4)];

const RING: [SyncRow; 2] = [row!(0, 1, 1), row!(1, 1, 2)];

// Kept: the two pairs differ in which side is a pair, which one function could not build. The
// devices stand side by side, since each case pairs them in its own way.
fn print_left(rt: &HostRuntime, door: Table, bell: Table) -> anyhow::Result<()> {
    let pair = Pair::new(door, bell, with_rows(&DOOR_BELL)?);
    print_pair(
        rt,
        "(door and bell) and bell",
        pair,
        bell,
        with_rows(&THEN_BELL)?,
    )
}

fn print_right(rt: &HostRuntime, door: Table, bell: Table) -> anyhow::Result<()> {
    let pair = Pair::new(door, bell, with_rows(&DOOR_BELL)?);
    print_pair(
        rt,
        "bell and (door and bell)",
        bell,
        pair,
        with_rows(&BELL_FIRST)?,
    )
}

fn print_both(rt: &HostRuntime, bell: Table) -> anyhow::Result<()> {
    let left = Pair::new(bell, bell, with_rows(&TWO_BELLS)?);
    let right = Pair::new(bell, bell, with_rows(&TWO_BELLS)?);
    print_pair(
        rt,
        "(bell and bell) and (bell and bell)",
        left,
        right,
        with_rows(&FOUR_BELLS)?,
    )
}

// Five clocks are too many; a pair that does not fit is idle, and can be a side again.
fn print_past(rt: &HostRuntime, door: Table, lamp: Table, bell: Table) -> anyhow::Result<()> {
    let rows = with_rows(&RING)?;
    let four = Pair::new(door, lamp, rows);
    print_pair(rt, "(door and lamp) and bell", four, bell, rows)?;
    let five = Pair::new(Pair::new(door, lamp, rows), bell, rows);
    print_pair(rt, "((door and lamp) and bell) and bell", five, bell, rows)
}

/// The text of each pair.
pub(crate) fn print_nested(rt: &HostRuntime) -> anyhow::Result<()> {
    let door = table_of(&DOOR);
    let lamp = table_of(&LAMP);
    let bell = table_of(&BELL);
    print_left(rt, door, bell)?;
    print_right(rt, door, bell)?;
    print_both(rt, bell)?;
    print_past(rt, door, lamp, bell)
}
