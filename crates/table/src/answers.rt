//! The answers of a table.
ghost use Rattle.std.specs.Prelude.{◌≡◌};
ghost use Rattle.device_sheet.proofs.Lawfuls.{table_lawful};
ghost use Rattle.table.specs.Meanings.{edge_of_record, meaning_of};
ghost use Rattle.table.specs.Records.{record_told};

use super::edges::{EdgeRecord, edge_records};
use super::held::Table;
use device::{ClockSet, Condition, Device, Edge, Number};
use sheet::read_condition;

impl From<EdgeRecord> for Edge {
    ghost from_gives = { λ fields edge. edge ≡ edge_of_record fields };

    fn from(fields: EdgeRecord) -> Edge {
        Edge {
            source: u16::from(fields.source),
            target: u16::from(fields.target),
            action: fields.action,
            resets: ClockSet {
                bits: fields.resets,
            },
            conditions: fields.count,
        }
    }
}

impl<'a> Table<'a> {
    // The record of the edge with this number; none past the last.
    fn record(&self, number: u32) -> Option<EdgeRecord>
        ensures { result ≡ record_told self.now.edges.now number }
    {
        let bytes = edge_records(self.edges).get(number as usize)?;
        Some(EdgeRecord::from(bytes))
    }
}

impl<'a> Device for Table<'a> {
    ghost meaning = { λ t. meaning_of t };

    ghost lawful = { λ t. table_lawful t.nodes t.start t.clocks t.constant t.edges.now t.conditions.now t.numbers t.few t.records };

    fn number(&self, which: Number) -> u32 {
        match which {
            Number::Nodes => u32::from(self.nodes),
            Number::Start => u32::from(self.start),
            Number::Clocks => u32::from(self.clocks),
            Number::LargestConstant => u32::from(self.constant),
            Number::MostConditions => 8,
            Number::EdgeNumbers => (self.edges.len() / 8) as u32,
        }
    }

    fn edge(&self, number: u32) -> Option<Edge> {
        self.record(number).map(Edge::from)
    }

    fn condition(&self, number: u32, place: u32) -> Option<Condition> {
        let edge = self.record(number)?;
        if place >= u32::from(edge.count) {
            return None;
        }
        read_condition(self.conditions, usize::from(edge.first) + place as usize)
    }
}
