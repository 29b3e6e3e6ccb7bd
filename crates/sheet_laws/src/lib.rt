//! Laws of sheets: which are accepted, and which fault a refused one tells. Each function does
//! nothing; its contract is the law.
#![tactic(auto)]

ghost use Rattle.sheet_laws.specs.Acceptance.{DeviceAcceptedExactly, PropertyAcceptedExactly};
ghost use Rattle.sheet_laws.specs.Refusals.{DeviceRefusedFirst, PropertyRefusedFirst};

/// A device sheet is accepted exactly if every limit of a device sheet holds.
pub fn device_acceptance()
    ensures { DeviceAcceptedExactly }
{}

/// A property sheet is accepted exactly if every limit of a property sheet holds.
pub fn property_acceptance()
    ensures { PropertyAcceptedExactly }
{}

/// A device sheet is refused with a fault exactly if the fault's limit is broken, no limit of a
/// smaller number is broken, and none of its number at a lower place.
pub fn device_refusals()
    ensures { DeviceRefusedFirst }
{}

/// A property sheet is refused with a fault exactly if the fault's limit is broken, no limit of a
/// smaller number is broken, and none of its number at a lower place.
pub fn property_refusals()
    ensures { PropertyRefusedFirst }
{}
