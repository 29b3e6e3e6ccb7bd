//! Pairs of devices in words, pairs at the limits of devices, and rows that synchronisers refuse.
#![tactic(auto)]

// Kept: the runtime stands beside a case's devices: a struct of both would be made for each call.
mod limits;
mod nested;
mod rows;
mod sheets;
mod tables;
mod verdicts;

fn run(rt: &HostRuntime) -> anyhow::Result<()> {
    tables::print_tables(rt)?;
    nested::print_nested(rt)?;
    limits::print_limits(rt)?;
    rows::print_rows(rt)
}

fn main(rt: HostRuntime) -> anyhow::Result<()> {
    run(&rt)
}
