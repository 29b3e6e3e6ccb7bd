//! Pairs with as much as a device may have, and pairs past that. None has rows.
use super::sheets::table_of;
use super::verdicts::Verdict;
use device::{Device, Number};
use pair::{Pair, Synchroniser};
use std::alloc::{AllocError, Global};
use table::Table;

// A table with so many nodes, clocks and edges.
#[derive(Clone, Copy)]
struct Size(u8, u8, u16);

// Three tables: the first two are a pair, and that and the third are another.
#[derive(Clone, Copy)]
struct Case {
    title: &'static str,
    sizes: [Size; 3],
}

const CASES: [Case; 8] = [
    Case {
        title: "64 * 64 nodes, then 64 * 64 * 1",
        sizes: [Size(64, 0, 0), Size(64, 0, 0), Size(1, 0, 0)],
    },
    Case {
        title: "41 * 50 nodes, then 41 * 50 * 2",
        sizes: [Size(41, 0, 0), Size(50, 0, 0), Size(2, 0, 0)],
    },
    Case {
        title: "2 + 2 clocks, then 2 + 2 + 0",
        sizes: [Size(1, 2, 0), Size(1, 2, 0), Size(1, 0, 0)],
    },
    Case {
        title: "1 + 0 clocks, then 1 + 0 + 4",
        sizes: [Size(1, 1, 0), Size(1, 0, 0), Size(1, 4, 0)],
    },
    Case {
        title: "3 + 2 clocks, then 4",
        sizes: [Size(1, 3, 0), Size(1, 2, 0), Size(1, 4, 0)],
    },
    Case {
        title: "320 * 320 edge numbers, then (320 * 320 + 64 * 64) * 1",
        sizes: [Size(64, 0, 256), Size(64, 0, 256), Size(1, 0, 0)],
    },
    Case {
        title: "11 * 29 edge numbers, then (11 * 29 + 1) * 320",
        sizes: [Size(1, 0, 10), Size(1, 0, 28), Size(64, 0, 256)],
    },
    Case {
        title: "44 * 179 edge numbers, then (44 * 179 + 1) * 13",
        sizes: [Size(1, 0, 43), Size(1, 0, 178), Size(1, 0, 12)],
    },
];

// Edges from node 0 to itself, with no conditions.
fn sheet_of(heap: Global, size: Size) -> Result<Vec<u8>, AllocError> {
    let Size(nodes, clocks, edges) = size;
    let length = 8 * u32::from(edges);
    let [_, _, a, b] = length.to_be_bytes();
    let [_, _, c, d] = (16 + length).to_be_bytes();
    let mut bytes = Vec::from_slice(heap, &[b'D', nodes, clocks, 0, 0, 2, 0, 0])?;
    bytes.extend_from_slice(&[0, 16, a, b, c, d, 0, 0])?;
    for _ in 0..edges {
        bytes.extend_from_slice(&[0, 0, 1, 0, 0, 0, 0, 0])?;
    }
    Ok(bytes)
}

fn print_numbers<L: Device, R: Device>(rt: &HostRuntime, pair: &Pair<L, R>) -> anyhow::Result<()> {
    let verdict = Verdict(pair.fits());
    let nodes = pair.number(Number::Nodes);
    let start = pair.number(Number::Start);
    let clocks = pair.number(Number::Clocks);
    let constant = pair.number(Number::LargestConstant);
    let most = pair.number(Number::MostConditions);
    let edges = pair.number(Number::EdgeNumbers);
    println!(rt;
        "{verdict}: nodes {nodes}, start {start}, clocks {clocks}, largest constant {constant}, most conditions {most}, edge numbers {edges}"
    )?;
    Ok(())
}

// The pair of the first two devices, then the pair of that and the third.
fn print_pairs<A: Device + Drop, B: Device + Drop, C: Device + Drop>(
    rt: &HostRuntime,
    first: A,
    second: B,
    third: C,
) -> anyhow::Result<()> {
    let inner = Pair::new(first, second, Synchroniser::new());
    print_numbers(rt, &inner)?;
    let outer = Pair::new(inner, third, Synchroniser::new());
    print_numbers(rt, &outer)
}

fn print_case(rt: &HostRuntime, case: &Case) -> anyhow::Result<()> {
    rt.println(case.title)?;
    let [a, b, c] = case.sizes;
    let first = sheet_of(rt.alloc(), a)?;
    let second = sheet_of(rt.alloc(), b)?;
    let third = sheet_of(rt.alloc(), c)?;
    print_pairs(
        rt,
        table_of(first.as_slice()),
        table_of(second.as_slice()),
        table_of(third.as_slice()),
    )
}

// Each table has 8 conditions at most.
fn print_conditions(rt: &HostRuntime) -> anyhow::Result<()> {
    rt.println("4 * 8 conditions, then 5 * 8")?;
    let idle = Table::new();
    let left = Pair::new(idle, idle, Synchroniser::new());
    let right = Pair::new(idle, idle, Synchroniser::new());
    print_pairs(rt, left, right, idle)
}

/// Whether each pair fits, with its six numbers.
pub(crate) fn print_limits(rt: &HostRuntime) -> anyhow::Result<()> {
    for case in &CASES {
        print_case(rt, case)?;
    }
    print_conditions(rt)
}
