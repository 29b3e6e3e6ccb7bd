//! From the bytes of an input to the report.
ghost use Rattle.std.specs.Prelude.{◌≡◌, Ok, IfOk, OnOk, MatchResult};
ghost use Rattle.sheet.specs.Inputs.{device_part, property_part};
ghost use Rattle.device_sheet.specs.Sheets.{read_device};
ghost use Rattle.property_sheet.specs.Sheets.{read_property};
ghost use Rattle.property.specs.Contents.{content_of};
ghost use Rattle.table.specs.Meanings.{meaning_of};
ghost use Rattle.judge.specs.Reports.{both_sheets, report_of, reported};
ghost use Rattle.judge.specs.Verdicts.{InputRight};

use super::judging::judge_device;
use super::report::Report;
use chart::Row;
use moves::Instance;
use property::Property;
use sheet::Input;
use std::alloc::{AllocError, Global};
use table::Table;

// Kept: the description has a function alike with its own error; one for both would need a new crate.

// Loads both sheets, the device's first; what is reported if one is refused.
fn load<'a>(input: &'a [u8], device: &mut Table<'a>, property: &mut Property) -> Result<(), Report>
    ensures sheets { result ≡ both_sheets (read_device (device_part input.now)) (read_property (property_part input.now)) }
    ensures device { OnOk result (read_device (device_part input.now) ≡ Ok (meaning_of device.new)) }
    ensures property { OnOk result (read_property (property_part input.now) ≡ Ok (content_of property.new)) }
{
    let sheets = Input::split(input);
    device.load(sheets.device).map_err(Report::DeviceRefused)?;
    property
        .load(sheets.property)
        .map_err(Report::PropertyRefused)?;
    Ok(())
}

/// Judges the device and the property of an input, on a chart of the caller's. If memory is lacking
/// for the property, the chart is as it was.
pub fn judge_input(heap: Global, input: &[u8], chart: &mut [Row]) -> Result<Report, AllocError>
    ensures report { MatchResult result (λ t. reported t chart.new ≡ report_of input.now chart.old) (λ _. chart.new ≡ chart.old) }
    ensures right { IfOk result (λ t. InputRight input.now chart.old t) }
{
    let mut property = Property::new(heap)?;
    let mut device = Table::new();
    if let Err(refused) = load(input, &mut device, &mut property) {
        return Ok(refused);
    }
    let instance = Instance {
        device: &device,
        property: &property,
    };
    Ok(judge_device(&instance, chart))
}
