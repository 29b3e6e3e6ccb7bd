//! Bytes, words and parts of a byte string.
ghost use Rattle.std.specs.Prelude.{◌≡◌, ◌≤◌, length, take, drop};
ghost use Rattle.sheet.specs.Layout.{byte_at, word_at};

/// The byte at a place, 0 past the end.
pub(crate) fn byte_at(bytes: &[u8], place: usize) -> u8
    ensures { result ≡ byte_at bytes.now place }
{
    bytes.get(place).copied().unwrap_or(0)
}

/// The two-byte number at a place, big end first.
pub(crate) fn word_at(bytes: &[u8], place: u16) -> u16
    ensures { result ≡ word_at bytes.now place }
{
    let place = usize::from(place);
    u16::from_be_bytes([byte_at(bytes, place), byte_at(bytes, place + 1)])
}

/// At most `len` bytes from `from` on: as many as there are.
pub(crate) fn part(bytes: &[u8], from: usize, len: usize) -> &[u8]
    ensures value { result.now ≡ take len (drop from bytes.now) }
    ensures bound { length result.now ≤ len }
{
    let tail = rest(bytes, from);
    tail.get(..len).unwrap_or(tail)
}

/// What follows the first `from` bytes.
pub(crate) fn rest(bytes: &[u8], from: usize) -> &[u8]
    ensures { result.now ≡ drop from bytes.now }
{
    bytes.get(from..).unwrap_or(&[])
}
