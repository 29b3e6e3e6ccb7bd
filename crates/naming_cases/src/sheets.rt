//! A small device and a property with a line of each kind.
use anyhow::anyhow;
use moves::Instance;
use property::Property;
use table::Table;

// Three nodes, two clocks, largest constant 2.
static DEVICE: [u8; 72] = [
    b'D', 3, 2, 2, 0, 2, 0, 0, // 0: nodes 3, clocks 2, largest constant 2, start 0
    0, 16, 0, 32, // 8: edges
    0, 48, 0, 24, // 12: conditions
    0, 1, 1, 2, 0, 0, 2, 0, // 16: edge 0: 0 to 1, action 1, clock 0 > 0, clock 0 <= 1, reset 1
    0, 2, 2, 0, 0, 2, 1, 0, // 24: edge 1: 0 to 2, action 2, clock 1 < 1
    0, 0, 1, 1, 0, 3, 1, 0, // 32: edge 2: 0 to 0, action 1, clock 0 >= 1, reset 0
    1, 2, 1, 3, 0, 4, 2, 0, // 40: edge 3: 1 to 2, action 1, clock 0 - clock 1 > 0, = 1, resets both
    0, 255, 4, 0, // 48: clock 0 > 0
    0, 255, 1, 1, // 52: clock 0 <= 1
    1, 255, 0, 1, // 56: clock 1 < 1
    0, 255, 3, 1, // 60: clock 0 >= 1
    0, 1, 4, 0, // 64: clock 0 - clock 1 > 0
    0, 1, 2, 1, // 68: clock 0 - clock 1 = 1
];

// One clock, largest constant 1, a line of each kind.
static PROPERTY: [u8; 60] = [
    b'P', 0, 1, 1, 0, 2, 0, 0, // 0: clocks 1, largest constant 1
    0, 16, 0, 40, // 8: lines
    0, 56, 0, 4, // 12: conditions
    4, 6, 0, 0, // 16: line 0: some delay 6
    0, 0, 0, 0, // 20: line 1: true
    1, 0, 0, 0, // 24: line 2: false
    2, 9, 1, 0, // 28: line 3: both 9 1
    3, 2, 7, 0, // 32: line 4: either 2 7
    5, 8, 0, 0, // 36: line 5: every delay 8
    6, 1, 3, 0, // 40: line 6: some action 1, then 3
    7, 2, 4, 0, // 44: line 7: every action 2, then 4
    8, 0, 5, 0, // 48: line 8: reset clock 0, then 5
    9, 0, 0, 0, // 52: line 9: condition 0
    0, 255, 1, 1, // 56: clock 0 <= 1
];

/// The device and the property.
#[derive(Drop)]
pub struct Loaded {
    pub device: Table<'static>,
    pub property: Property,
}

impl Loaded {
    pub fn new(rt: &HostRuntime) -> anyhow::Result<Loaded> {
        let mut device = Table::new();
        device
            .load(&DEVICE)
            .map_err(|_| anyhow!("the device is refused"))?;
        let mut property = Property::new(rt.alloc())?;
        property
            .load(&PROPERTY)
            .map_err(|_| anyhow!("the property is refused"))?;
        Ok(Loaded { device, property })
    }

    /// Both, asked together.
    pub fn instance(&self) -> Instance<Table<'static>> {
        Instance {
            device: &self.device,
            property: &self.property,
        }
    }
}
