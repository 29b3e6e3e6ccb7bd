//! Sheets that are accepted, and sheets that are refused: one line for each case.
#![tactic(auto)]

// Kept: the runtime and the allocator stand beside a sheet, a table or a kind: a struct of both would
// be made for each call.
mod changes;
mod cuts;
mod device_fields;
mod inputs;
mod kept;
mod largest;
mod limits;
mod orders;
mod property_fields;
mod records;
mod sheets;
mod verdicts;

fn run(rt: &HostRuntime) -> anyhow::Result<()> {
    changes::print_changes(rt)?;
    cuts::print_cuts(rt)?;
    orders::print_orders(rt)?;
    limits::print_limits(rt)?;
    largest::print_largest(rt)?;
    kept::print_kept(rt)?;
    inputs::print_inputs(rt)
}

fn main(rt: HostRuntime) -> anyhow::Result<()> {
    run(&rt)
}
