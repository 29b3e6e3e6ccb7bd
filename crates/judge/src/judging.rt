//! Judging: a run is opened on a chart, grown, thinned and asked.
ghost use Rattle.std.specs.Prelude.{◌≡◌};
ghost use Rattle.property.specs.Contents.{content_of};
ghost use Rattle.judge.specs.Reports.{judged, reported, run_report};
ghost use Rattle.judge.specs.Verdicts.{JudgedRight};

use super::report::{Judgement, Report};
use chart::{Row, RunRefusal};
use device::Device;
use moves::Instance;
use run::Run;

// Grows a run by as many rows as the chart has, C, and thins it by C (C + 1), which always suffices.
fn judgement<D: Device>(instance: &Instance<D>, chart: &mut [Row]) -> Result<Judgement, RunRefusal>
    ensures { reported (run_report result) chart.new ≡ judged (D.Device.meaning instance.now.device.now) (content_of instance.now.property.now) chart.old }
{
    let mut run = Run::open(instance, chart)?;
    let rows = chart.len() as u32;
    run.grow(instance, chart, rows)?;
    run.thin(instance, chart, rows * (rows + 1))?;
    let verdict = run.ask(chart)?;
    Ok(Judgement {
        verdict,
        rows: run.rows(),
        strikes: run.strikes(),
        examinations: run.examinations(),
    })
}

/// Judges whether a device satisfies a property, on a chart of the caller's. The run is grown by as
/// many rows as the chart has, C, and thinned by C (C + 1), which always suffices.
pub fn judge_device<D: Device>(instance: &Instance<D>, chart: &mut [Row]) -> Report
    ensures report { reported result chart.new ≡ judged (D.Device.meaning instance.now.device.now) (content_of instance.now.property.now) chart.old }
    ensures right { JudgedRight (D.Device.meaning instance.now.device.now) (content_of instance.now.property.now) chart.old result }
{
    instance.property.keeps_limits();
    judgement(instance, chart).map_or_else(Report::RunRefused, Report::Judged)
}
