//! The claims that claims name, printed.
use moves::{Claim, Instance};
use region::Region;
use table::Table;

fn print_claim(rt: &HostRuntime, title: &str, claim: &Claim) -> anyhow::Result<()> {
    let node = claim.node;
    let line = claim.line;
    let [a, b, c, _, _, _] = claim.region.clocks();
    let differences = claim.region.differences();
    let x = differences[0];
    let y = differences[1];
    let z = differences[5];
    println!(rt; "{title} node {node} line {line} clocks {a} {b} {c} differences {x} {y} {z}")?;
    Ok(())
}

fn print_names(
    rt: &HostRuntime,
    instance: &Instance<Table<'static>>,
    claim: &Claim,
) -> anyhow::Result<()> {
    print_claim(rt, "at", claim)?;
    if instance.asks_every(claim) {
        println!(rt; "every of")?;
    } else {
        println!(rt; "some of")?;
    }
    for named in instance.names(claim) {
        print_claim(rt, " ", &named)?;
    }
    Ok(())
}

fn with_line(region: Region, node: u16, line: u8) -> Claim {
    Claim { node, line, region }
}

/// Every line at the start.
pub fn print_at_start(rt: &HostRuntime, instance: &Instance<Table<'static>>) -> anyhow::Result<()> {
    let start = instance.first_claim();
    for line in 0..11 {
        print_names(rt, instance, &with_line(start.region, start.node, line))?;
    }
    Ok(())
}

/// The two action lines, the reset and the condition at each place that the start leads to by
/// delays; and some action and every delay at node 1 with clock 1 reset, so that clocks differ.
pub fn print_later(rt: &HostRuntime, instance: &Instance<Table<'static>>) -> anyhow::Result<()> {
    for claim in instance.names(&instance.first_claim()) {
        print_names(rt, instance, &with_line(claim.region, 0, 6))?;
        print_names(rt, instance, &with_line(claim.region, 0, 7))?;
        print_names(rt, instance, &with_line(claim.region.reset(1), 1, 6))?;
        print_names(rt, instance, &with_line(claim.region.reset(1), 1, 5))?;
        print_names(rt, instance, &with_line(claim.region, 0, 8))?;
        print_names(rt, instance, &with_line(claim.region, 0, 9))?;
    }
    Ok(())
}
