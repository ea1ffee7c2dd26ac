// The theory of the format: definitions and laws of forests of nodes, their bytes and their rows (specs/, proofs/); and a
// node's charge.
#![tactic(auto)]

ghost use Rattle.std.specs.Prelude.{◌≡◌, ◌<◌};
ghost use Rattle.format.specs.Rows.{own_bytes, body_of, outside};

// The first four bytes of a file, `63 61 73 74`, as a number.
pub const FIRST_FOUR: u32 = 0x74736163;

// A node's own bytes. They have a type of their own, so that faces are never added to them.
#[derive(Clone, Copy, Debug, PartialEq, Eq)]
pub struct OwnBytes(pub u64);

// The own bytes of the node in a row. A body that ends before its start has none.
pub fn own_bytes(row: table::Row) -> OwnBytes
    ensures result { result.0 ≡ own_bytes row }
    ensures bound { result.0 < 8589934592 }
{
    let start = row.start as u64;
    let end = row.end as u64;
    if end < start {
        return OwnBytes(24);
    }
    let body = end - start;
    OwnBytes(24 + body)
}

// The body of the node in a row, as far as the file has it.
pub fn body_of(file: &[u8], row: table::Row) -> &[u8]
    ensures { result.now ≡ body_of file.now row }
{
    let n = file.len();
    let start = row.start as usize;
    let end = row.end as usize;
    if n < start {
        return &file[n..];
    }
    if end < start {
        return &file[n..];
    }
    if n < end {
        return &file[start..];
    }
    &file[start..end]
}

// Whether the body of the node in a row lies outside a given number of bytes: it ends before its start, or past them.
pub fn is_outside(size: usize, row: table::Row) -> bool
    ensures { result ≡ outside size row }
{
    let start = row.start as usize;
    let end = row.end as usize;
    (end < start) | (size < end)
}
