//! What small claims name: each of the ten kinds of line at a few places, one line for each claim.
#![tactic(auto)]

// Kept: the runtime stands beside what is loaded: a struct of both would be made for each call.
mod places;
mod sheets;

use sheets::Loaded;

fn run(rt: &HostRuntime) -> anyhow::Result<()> {
    let loaded = Loaded::new(rt)?;
    let instance = loaded.instance();
    places::print_at_start(rt, &instance)?;
    places::print_later(rt, &instance)
}

fn main(rt: HostRuntime) -> anyhow::Result<()> {
    run(&rt)
}
