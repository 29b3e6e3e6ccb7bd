//! Sheets of small devices, and tables that read them.
use table::Table;

/// A sheet that is refused: its table is idle.
pub const NOTHING: [u8; 0] = [];

/// Two nodes, two clocks, two edges.
pub const DOOR: [u8; 40] = [
    b'D', 2, 2, 3, // 0: nodes 2, clocks 2, largest constant 3
    1, 2, 0, 0, // 4: start 1, edition 2
    0, 16, 0, 16, // 8: edges
    0, 32, 0, 8, // 12: conditions
    0, 1, 1, 1, // 16: edge 0, from node 0 to node 1, action 1, reset clock 0
    0, 0, 2, 0, // 20: its conditions 0 and 1
    1, 0, 2, 2, // 24: edge 1, from node 1 to node 0, action 2, reset clock 1
    0, 2, 0, 0, // 28: it has none
    0, 255, 1, 2, // 32: clock 0 <= 2
    0, 1, 3, 255, // 36: clock 0 - clock 1 >= -1
];

/// Three nodes, two clocks, three edges.
pub const LAMP: [u8; 52] = [
    b'D', 3, 2, 5, // 0: nodes 3, clocks 2, largest constant 5
    1, 2, 0, 0, // 4: start 1, edition 2
    0, 16, 0, 24, // 8: edges
    0, 40, 0, 12, // 12: conditions
    0, 2, 1, 3, // 16: edge 0, from node 0 to node 2, action 1, reset both clocks
    0, 0, 2, 0, // 20: its conditions 0 and 1
    2, 1, 3, 0, // 24: edge 1, from node 2 to node 1, action 3
    0, 2, 1, 0, // 28: its condition 2
    1, 0, 16, 2, // 32: edge 2, from node 1 to node 0, action 16, reset clock 1
    0, 0, 3, 0, // 36: its conditions 0, 1 and 2
    1, 0, 0, 5, // 40: clock 1 - clock 0 < 5
    1, 255, 4, 0, // 44: clock 1 > 0
    0, 255, 2, 4, // 48: clock 0 = 4
];

/// One node, one clock, one edge.
pub const BELL: [u8; 28] = [
    b'D', 1, 1, 1, // 0: nodes 1, clocks 1, largest constant 1
    0, 2, 0, 0, // 4: start 0, edition 2
    0, 16, 0, 8, // 8: edges
    0, 24, 0, 4, // 12: conditions
    0, 0, 1, 1, // 16: edge 0, from node 0 to itself, action 1, reset clock 0
    0, 0, 1, 0, // 20: its condition 0
    0, 255, 3, 1, // 24: clock 0 >= 1
];

/// The table of a sheet; an idle one if the sheet is refused.
pub(crate) fn table_of(sheet: &[u8]) -> Table<'_> {
    let mut table = Table::new();
    // Kept: a refused sheet leaves the table idle, and that is what some cases ask for.
    let _ = table.load(sheet);
    table
}
