//! A sheet that is refused changes nothing: the base sheet is loaded, then another one.
use super::sheets::{Change, Sheet};
use super::verdicts::{Held, records_of};
use sheet::SheetKind;
use wording::InWords;

// A third edge, with a byte that is right or that breaks a limit, from refusal 2 to refusal 7.
const THREE_EDGES: [[Change; 2]; 7] = [
    [Change(11, 24), Change(0, 68)],
    [Change(11, 24), Change(0, 80)],
    [Change(11, 24), Change(1, 65)],
    [Change(11, 24), Change(13, 47)],
    [Change(11, 24), Change(15, 21)],
    [Change(11, 24), Change(48, 2)],
    [Change(11, 24), Change(31, 1)],
];

// An eleventh line, with a byte that is right or that breaks a limit, from refusal 2 to refusal 8.
const ELEVEN_LINES: [[Change; 2]; 7] = [
    [Change(11, 44), Change(0, 80)],
    [Change(11, 44), Change(0, 68)],
    [Change(11, 44), Change(2, 3)],
    [Change(11, 44), Change(13, 63)],
    [Change(11, 44), Change(15, 7)],
    [Change(11, 44), Change(64, 2)],
    [Change(11, 44), Change(20, 10)],
];

// Loads one sheet after the other, and prints how many edges or lines there are at each step.
fn print_loads(rt: &HostRuntime, first: &Sheet, second: &Sheet) -> anyhow::Result<()> {
    let mut held = Held::new(rt.alloc(), first.kind)?;
    let start = held.count();
    let once = held.load(first.bytes.as_slice());
    let before = held.count();
    let twice = held.load(second.bytes.as_slice());
    let after = held.count();
    let kind = InWords(first.kind);
    let noun = records_of(first.kind);
    println!(rt;
        "{kind} {noun} {start}; first sheet {once}: {kind} {noun} {before}; second sheet {twice}: {kind} {noun} {after}"
    )?;
    Ok(())
}

fn print_kept_of(rt: &HostRuntime, kind: SheetKind, cases: &[[Change; 2]]) -> anyhow::Result<()> {
    let base = Sheet::base(rt.alloc(), kind)?;
    for changes in cases {
        print_loads(rt, &base, &base.with(rt.alloc(), changes)?)?;
    }
    let short = base.of_length(rt.alloc(), 15)?;
    print_loads(rt, &base, &short)?;
    print_loads(rt, &short, &short)?;
    print_loads(rt, &short, &base)
}

/// Tables and properties that are loaded twice.
pub(crate) fn print_kept(rt: &HostRuntime) -> anyhow::Result<()> {
    print_kept_of(rt, SheetKind::Device, &THREE_EDGES)?;
    print_kept_of(rt, SheetKind::Property, &ELEVEN_LINES)
}
