//! Sheets to load: the two base sheets, and what is made of them.
use sheet::SheetKind;
use std::alloc::{AllocError, Global};

/// A place of a sheet, and the byte that is put there.
#[derive(Clone, Copy)]
pub struct Change(pub usize, pub u8);

/// A sheet with its kind, and the name that its cases go by.
#[derive(Drop)]
pub struct Sheet {
    pub name: &'static str,
    pub kind: SheetKind,
    pub bytes: Vec<u8>,
}

// The free bytes would do as an edge before the edges, as an edge or two conditions after them,
// and as a condition at the end. So a section can be moved there or grow, and be accepted.
const DEVICE: [[u8; 4]; 18] = [
    [b'D', 3, 2, 2], // 0: nodes 3, clocks 2, largest constant 2
    [0, 2, 0, 0], // 4: start 0, edition 2
    [0, 24, 0, 16], // 8: edges
    [0, 48, 0, 20], // 12: conditions
    [0, 0, 1, 0], // 16: free
    [0, 0, 0, 0], // 20: free
    [0, 1, 1, 1], // 24: edge 0, from node 0 to node 1, action 1, reset clock 0
    [0, 0, 2, 0], // 28: its conditions 0 and 1
    [1, 2, 16, 2], // 32: edge 1, from node 1 to node 2, action 16, reset clock 1
    [0, 2, 3, 0], // 36: its conditions 2, 3 and 4
    [0, 1, 1, 2], // 40: free
    [0, 1, 2, 0], // 44: free
    [0, 255, 1, 2], // 48: clock 0 <= 2
    [1, 255, 0, 2], // 52: clock 1 < 2
    [0, 1, 3, 254], // 56: clock 0 - clock 1 >= -2
    [1, 0, 2, 1], // 60: clock 1 - clock 0 = 1
    [1, 255, 4, 0], // 64: clock 1 > 0
    [1, 255, 3, 1], // 68: free
];

// The free bytes would do as a line before the lines, as a line or a condition after them, and as
// a condition at the end.
const PROPERTY: [[u8; 4]; 19] = [
    [b'P', 0, 2, 2], // 0: clocks 2, largest constant 2
    [0, 2, 0, 0], // 4: edition 2
    [0, 20, 0, 40], // 8: lines
    [0, 64, 0, 8], // 12: conditions
    [0, 0, 0, 0], // 16: free
    [0, 0, 0, 0], // 20: true
    [1, 0, 0, 0], // 24: false
    [2, 0, 9, 0], // 28: line 0 and line 9
    [3, 9, 1, 0], // 32: line 9 or line 1
    [4, 2, 0, 0], // 36: after some delay line 2
    [5, 3, 0, 0], // 40: after every delay line 3
    [6, 1, 4, 0], // 44: after some action 1 line 4
    [7, 16, 5, 0], // 48: after every action 16 line 5
    [8, 1, 6, 0], // 52: with clock 1 reset line 6
    [9, 0, 1, 0], // 56: condition 1
    [1, 0, 0, 0], // 60: free
    [0, 255, 1, 2], // 64: clock 0 <= 2
    [1, 0, 3, 254], // 68: clock 1 - clock 0 >= -2
    [0, 255, 0, 1], // 72: free
];

impl Sheet {
    /// The base sheet of this kind.
    pub(crate) fn base(heap: Global, kind: SheetKind) -> Result<Sheet, AllocError> {
        let (name, rows) = match kind {
            SheetKind::Device => ("device", DEVICE.as_slice()),
            SheetKind::Property => ("property", PROPERTY.as_slice()),
        };
        Ok(Sheet {
            name,
            kind,
            bytes: rows.concat(heap)?,
        })
    }

    /// A copy with some bytes changed; a change past the end is left out.
    pub(crate) fn with(&self, heap: Global, changes: &[Change]) -> Result<Sheet, AllocError> {
        let mut bytes = Vec::from_slice(heap, self.bytes.as_slice())?;
        for &Change(place, byte) in changes {
            if let Some(old) = bytes.get_mut(place) {
                *old = byte;
            }
        }
        Ok(Sheet {
            name: self.name,
            kind: self.kind,
            bytes,
        })
    }

    /// A copy with this length, cut short or filled up with 0.
    pub(crate) fn of_length(&self, heap: Global, length: usize) -> Result<Sheet, AllocError> {
        let mut bytes = Vec::from_slice(heap, self.bytes.as_slice())?;
        bytes.resize(length, 0)?;
        Ok(Sheet {
            name: self.name,
            kind: self.kind,
            bytes,
        })
    }
}
