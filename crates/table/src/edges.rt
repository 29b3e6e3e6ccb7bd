//! Edge records: what they hold, and their limits.
ghost use Rattle.std.specs.Prelude.{◌≡◌, ◌+◌, ◌/◌, ◌^◌, ◌<◌, ◌≤◌, length, nat_lt};
ghost use Rattle.std.specs.Simd.{first_chunks};
ghost use Rattle.sheet.specs.declared.kinds.SheetKind.TheVariants.{Device};
ghost use Rattle.sheet.specs.Limits.{checked, of_each};
ghost use Rattle.device_sheet.specs.Edges.{edge_limits};
ghost use Rattle.device_sheet.specs.Sheets.{edges_limits};
ghost use Rattle.table.specs.Records.{record_at};

use sheet::{Reader, RecordFault, RecordKind, SheetKind, SheetRecords};

/// What a record of an edge holds, field by field.
#[derive(Clone, Copy)]
pub(super) struct EdgeRecord {
    pub(super) source: u8,
    pub(super) target: u8,
    pub(super) action: u8,
    pub(super) resets: u8,
    pub(super) first: u16,
    pub(super) count: u8,
    pub(super) reserved: u8,
}

impl From<&[u8; 8]> for EdgeRecord {
    ghost from_gives = { λ bytes r. r ≡ record_at bytes.now 0 };

    fn from(bytes: &[u8; 8]) -> EdgeRecord {
        let [source, target, action, resets, high, low, count, reserved] = *bytes;
        EdgeRecord {
            source,
            target,
            action,
            resets,
            first: u16::from_be_bytes([high, low]),
            count,
            reserved,
        }
    }
}

/// The records of a section of edges.
pub(super) fn edge_records(section: &[u8]) -> &[[u8; 8]]
    ensures value { result.now ≡ first_chunks 8 (length section.now / 8) section.now }
    ensures count { length result.now ≡ length section.now / 8 }
{
    // Kept: lines have such a function, of another size; one for both would be a public function of
    // another crate for this one call.
    section.as_chunks().0
}

/// The numbers that edges keep to: how many nodes, clocks and conditions there are, and
/// where the section begins in its sheet.
#[derive(Clone, Copy)]
pub(super) struct EdgeRules {
    nodes: u8,
    clocks: u8,
    conditions: usize,
    at: u16,
}

impl EdgeRules {
    // Only clocks that exist are reset.
    fn resets_fit(self, resets: u8) -> bool
        ensures { result ≡ nat_lt resets (2 ^ self.clocks) }
    {
        self.clocks >= 8 || resets < 1 << self.clocks
    }

    // The limits of the edge whose record begins at this byte of the sheet.
    fn check_edge(self, bytes: &[u8; 8], place: usize) -> Result<(), RecordFault>
        requires { place + 7 ≤ usize.MAX }
        ensures { result ≡ checked (edge_limits self.nodes self.clocks self.conditions bytes.now place 0) }
    {
        let edge = EdgeRecord::from(bytes);
        let first = usize::from(edge.first);
        let count = usize::from(edge.count);
        let kind = RecordKind::Edges;
        kind.require(edge.source < self.nodes, place)?;
        kind.require(edge.target < self.nodes, place + 1)?;
        kind.require((1..=16).contains(&edge.action), place + 2)?;
        kind.require(self.resets_fit(edge.resets), place + 3)?;
        kind.require(first <= self.conditions, place + 4)?;
        kind.require(count <= 8 && first + count <= self.conditions, place + 6)?;
        kind.require(edge.reserved == 0, place + 7)
    }

    // The limits of every edge of a section, one after the other.
    fn check_each(self, section: &[u8]) -> Result<(), RecordFault>
        ensures { result ≡ checked (of_each (edge_limits self.nodes self.clocks self.conditions section.now self.at) 0 (length section.now / 8)) }
    {
        // Kept: lines and conditions have such a loop each, in other crates. Tried: one public
        // function that takes the check as a closure. It has to require that the closure may be
        // called, and no public function here requires anything; nor is a closure over `&[u8; N]`
        // proved yet. A trait over sizes, with a law, is longer than three loops of three lines.
        for (e, bytes) in edge_records(section).iter().enumerate() {
            self.check_edge(bytes, usize::from(self.at) + 8 * e)?;
        }
        Ok(())
    }
}

impl SheetRecords for EdgeRules {
    ghost KIND = { Device };

    const KIND: SheetKind = SheetKind::Device;

    ghost limits = { edges_limits };

    // Refusal 7, edge by edge.
    fn check(reader: &Reader) -> Result<(), RecordFault> {
        let sections = reader.sections();
        let rules = EdgeRules {
            nodes: reader.byte(1),
            clocks: reader.byte(2),
            conditions: sections.conditions.len() / 4,
            at: reader.records_at() as u16,
        };
        rules.check_each(sections.records)
    }
}
