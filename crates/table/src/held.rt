ghost use Rattle.std.specs.Prelude.{◌≡◌, ◌/◌, ◌≤◌, true, length};
ghost use Rattle.device_sheet.specs.Tables.{NumbersFit, records_fit};

/// A device over the two sections of its sheet, which it borrows and reads at each question.
#[derive(Clone, Copy)]
pub struct Table<'a> {
    pub(super) nodes: u8,
    pub(super) start: u8,
    pub(super) clocks: u8,
    pub(super) constant: u8,
    pub(super) edges: &'a [u8],
    pub(super) conditions: &'a [u8],
    ghost numbers: { NumbersFit nodes start clocks constant },
    ghost few: { length edges.now / 8 ≤ 256 },
    ghost records: { records_fit nodes clocks constant edges.now conditions.now ≡ true },
}
