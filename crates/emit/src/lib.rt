// Emitting a plan: the bytes of a file from rows and a source, in a lent output. Sizes, the root count and the length are
// computed from the rows.
#![tactic(auto)]

ghost use Rattle.std.specs.Prelude.{◌≡◌, ℕ, ◌+◌, ◌≤◌, ◌<◌, length, get_or};
ghost use Rattle.std.proofs.lemmas.List.Edits.{sets};
ghost use Rattle.base.specs.Limits.{most_rows};
ghost use Rattle.base.specs.Refusals.{refusal_in};
ghost use Rattle.table.specs.Table.{rows_at};
ghost use Rattle.format.specs.Forest.{header, file_header};
ghost use Rattle.format.specs.Rows.{hash_of, body_of};
ghost use Rattle.emit.specs.Emission.{emitted_rows, nodes_bytes, written_told, emission, output_of};
ghost use Rattle.emit.specs.Private.{node_bytes, Sized, MeasuresRows};

use base::{Reason, Refusal};

// The largest file, as a length is summed up.
const MOST_BYTES: u64 = base::MOST_BYTES as u64;

// The Root rows, and the length of the file.
#[derive(Clone, Copy, Debug, PartialEq, Eq)]
struct Measured {
    roots: u32,
    length: u32,
}

// A row's own bytes, its body as far as the source has it. (`format::own_bytes` goes by the row alone.)
fn own(source: &[u8], row: table::Row) -> u64
    ensures { (result ≡ 24 + length (body_of source.now row)) × (result < 8589934592) }
{
    24 + format::body_of(source, row).len() as u64
}

// Sizes, root count and length in one pass, from the last row to the first: when a row is reached, its place in `sizes`
// holds the sum of its children's sizes. The length only grows, so that the pass ends, with none, as soon as it is over the limit;
// no size exceeds the length.
fn measure(plan: &[u32], rows: usize, source: &[u8], sizes: &mut [u32]) -> Option<Measured>
    requires { (rows ≤ most_rows) × (length sizes.old ≡ most_rows) × ((p : ℕ) → get_or sizes.old p 0 ≡ 0) }
    ensures { MeasuresRows result source.now plan.now rows sizes.new }
{
    let mut length: u64 = 16;
    let mut roots: u32 = 0;
    for i in (0..rows).rev() {
        let row = table::row_at(plan, i);
        let own = own(source, row);
        length += own;
        if MOST_BYTES < length {
            return None;
        }
        let bytes = own as u32;
        let size = bytes + sizes[i];
        sizes[i] = size;
        let parent = row.parent as usize;
        if parent < i {
            sizes[parent] += size;
        }
        if row.kind == kinds::ROOT {
            roots += 1;
        }
    }
    Some(Measured {
        roots,
        length: length as u32,
    })
}

fn put_file_header(out: &mut [u8], roots: u32, flags: u32)
    ensures { out.new ≡ sets out.old 0 (file_header roots flags) }
{
    le::write(out, 0, format::FIRST_FOUR);
    le::write(out, 4, 1u32);
    le::write(out, 8, roots);
    le::write(out, 12, flags);
}

fn put_header(out: &mut [u8], row: table::Row, size: u32)
    ensures { out.new ≡ sets out.old 0 (header row.kind size (hash_of row) row.properties row.children) }
{
    le::write(out, 0, row.kind);
    le::write(out, 4, size);
    le::write(out, 8, row.low);
    le::write(out, 12, row.high);
    le::write(out, 16, row.properties);
    le::write(out, 20, row.children);
}

// Writes a node's header and body, and answers the place after them.
fn put_node(out: &mut [u8], at: usize, source: &[u8], row: table::Row, size: u32) -> usize
    requires { at + (24 + length (body_of source.now row)) ≤ length out.old }
    ensures place { result ≡ at + (24 + length (body_of source.now row)) }
    ensures output { out.new ≡ sets out.old at (node_bytes source.now size row) }
{
    // Lent just its 24 bytes, the header is stored without a test.
    put_header(&mut out[at..at + 24], row, size);
    let body = format::body_of(source, row);
    le::put_bytes(out, at + 24, body);
    at + 24 + body.len()
}

// Writes the nodes of the rows, one after the other.
fn put_nodes(out: &mut [u8], plan: &[u32], rows: usize, source: &[u8], sizes: &[u32])
    requires rows { rows ≤ most_rows }
    requires length { length sizes.now ≡ most_rows }
    requires sizes { Sized sizes.now source.now plan.now rows }
    requires room { 16 + length (nodes_bytes source.now 0 (rows_at plan.now 0 rows)) ≤ length out.old }
    ensures { out.new ≡ sets out.old 16 (nodes_bytes source.now 0 (rows_at plan.now 0 rows)) }
{
    let mut at: usize = 16;
    for i in 0..rows {
        let row = table::row_at(plan, i);
        at = put_node(out, at, source, row, sizes[i]);
    }
}

// Writes the file that the first rows of a table, at most 1,024, give over the source, and answers its length. The rows are not judged.
pub fn emit(
    plan: &[u32],
    rows: usize,
    source: &[u8],
    flags: u32,
    out: &mut [u8],
) -> Result<u32, Refusal>
    ensures result { written_told result ≡ emission flags source.now (emitted_rows plan.now rows) (length out.old) }
    ensures output { out.new ≡ output_of flags source.now (emitted_rows plan.now rows) out.old }
    ensures place { (refusal_in result).place ≡ 0 }
{
    let n = rows.min(base::MOST_ROWS);
    let mut sizes = [0u32; base::MOST_ROWS];
    let Some(m) = measure(plan, n, source, &mut sizes) else {
        return Err(Reason::NewFileTooLong.at(0));
    };
    let least = m.length as usize;
    if out.len() < least {
        return Err(Reason::OutputTooShort.at(0));
    }
    put_file_header(out, m.roots, flags);
    put_nodes(out, plan, n, source, &sizes);
    Ok(m.length)
}
