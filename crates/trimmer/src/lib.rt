// The trimmer: a file without one node of an unknown kind, or a refusal: the reader's, or 30 to 32.
#![tactic(auto)]

ghost use Rattle.std.specs.Prelude.{◌≡◌, true, ◌+◌, ◌-◌, ◌≤◌, ◌<◌, ◌^◌, length};
ghost use Rattle.base.specs.Limits.{most_bytes, most_rows};
ghost use Rattle.base.specs.Refusals.{refusal_in};
ghost use Rattle.table.specs.Table.{rows_at, put_rows, has_room, cleared, filled};
ghost use Rattle.format.specs.Rows.{own_bytes, all_own_bytes};
ghost use Rattle.walk.specs.Walk.{limited};
ghost use Rattle.reader.specs.Reading.{table_after};
ghost use Rattle.emit.specs.Emission.{emitted_rows, writing_done, written_told, emission, output_left, output_of};
ghost use Rattle.writer.specs.Forest.{moved_to, laid_out};
ghost use Rattle.removal.specs.Trimmer.{lowered, mended, without_from, new_file, removal_of, trimmed_of, trimmed_output, trimmed_table};
ghost use Rattle.trimmer.specs.Private.{Read, Removes, left_without};

use base::{Reason, Refusal};

// ---- a row taken out

// What is taken out of a table's first `nodes` rows: `row`, which is under row `above`.
#[derive(Clone, Copy, Debug, PartialEq, Eq)]
struct Removal {
    row: usize,
    above: u32,
    nodes: usize,
    ghost there: { row < nodes },
    ghost few: { nodes ≤ most_rows },
}

impl Removal {
    // A parent's row once the row is gone; none stays none.
    fn lowered(self, parent: u32) -> u32
        ensures { result ≡ lowered self.row parent }
    {
        if parent != table::NO_PARENT && self.row < parent as usize {
            parent - 1
        } else {
            parent
        }
    }

    // Row i, once the row is gone.
    fn mended(self, i: usize, row: table::Row) -> table::Row
        ensures { result ≡ mended self.row self.above i row }
    {
        let parent = self.lowered(row.parent);
        let children = if i == self.above as usize {
            row.children.saturating_sub(1)
        } else {
            row.children
        };
        table::Row {
            parent,
            children,
            ..row
        }
    }

    // Moves the rows after the row up by one, and mends each row that stays. The last place is left as it was.
    fn move_up(self, table: &mut [u32])
        ensures { table.new ≡ put_rows table.old 0 (without_from self.row self.above 0 (rows_at table.old 0 self.nodes)) }
    {
        let mut to: usize = 0;
        for i in 0..self.nodes {
            if i != self.row {
                let row = table::row_at(table, i);
                table::put_row(table, to, self.mended(i, row));
                to += 1;
            }
        }
    }

    // Takes the row out of the table's first rows. The last one's place is a row of zeros then.
    fn take_out(self, table: &mut [u32])
        requires { (has_room table.old ≡ true) × (table.old ≡ filled (rows_at table.old 0 self.nodes) table.old) }
        ensures { table.new ≡ filled (without_from self.row self.above 0 (rows_at table.old 0 self.nodes)) table.old }
    {
        self.move_up(table);
        table::put_row(table, self.nodes - 1, table::blank());
    }
}

// ---- bodies placed anew

// A row, its body as long as it was, after a header at a place.
fn moved(at: u32, row: table::Row) -> table::Row
    requires { at + own_bytes row ≤ most_bytes }
    ensures { result ≡ moved_to at row }
{
    let own = format::own_bytes(row);
    table::Row {
        start: at + 24,
        end: at + own.0 as u32,
        ..row
    }
}

// Places the bodies of a table's first rows anew: node after node after the file's header.
fn lay_out(table: &mut [u32], rows: usize)
    requires { (rows ≤ most_rows) × (16 + all_own_bytes (rows_at table.old 0 rows) ≤ most_bytes) }
    ensures { table.new ≡ put_rows table.old 0 (laid_out 16 (rows_at table.old 0 rows)) }
{
    let mut at: u32 = 16;
    for i in 0..rows {
        let row = moved(at, table::row_at(table, i));
        table::put_row(table, i, row);
        at = row.end;
    }
}

// ---- the answer

// A refusal of 30 to 32, which clears the rows.
fn refuse(why: Reason, table: &mut [u32]) -> Result<u32, Refusal>
    ensures { (result ≡ Err (record { reason = why; place = 0 })) × (table.new ≡ cleared table.old) }
{
    table::clear(table);
    Err(why.at(0))
}

// Writes the file of a table's first rows while they tell where their bodies lie in the source, and only then places the
// bodies anew.
fn emit_and_place(
    table: &mut [u32],
    rows: usize,
    source: &[u8],
    flags: u32,
    out: &mut [u8],
) -> Result<u32, Refusal>
    requires { (rows ≤ most_rows) × (16 + all_own_bytes (rows_at table.old 0 rows) ≤ most_bytes) }
    ensures result { written_told result ≡ emission flags source.now (emitted_rows table.old rows) (length out.old) }
    ensures output { out.new ≡ output_of flags source.now (emitted_rows table.old rows) out.old }
    ensures table { table.new ≡ put_rows table.old 0 (laid_out 16 (rows_at table.old 0 rows)) }
{
    let written = emit::emit(table, rows, source, flags, out);
    lay_out(table, rows);
    written
}

// Writes the file without the row that is taken out. The output has room for it.
fn rewrite(
    file: &[u8],
    removal: Removal,
    table: &mut [u32],
    flags: u32,
    out: &mut [u8],
) -> Result<u32, Refusal>
    requires { Removes file.now table.old removal.row removal.above removal.nodes flags (length out.old) }
    ensures result { written_told result ≡ writing_done (length (new_file file.now removal.row)) }
    ensures place { (refusal_in result).place ≡ 0 }
    ensures output { out.new ≡ output_left 0 (new_file file.now removal.row) out.old }
    ensures table { table.new ≡ table_after (new_file file.now removal.row) table.old }
{
    removal.take_out(table);
    emit_and_place(table, removal.nodes - 1, file, flags, out)
}

// A file's length without the own bytes of a row.
fn length_without(length: usize, row: table::Row) -> usize
    requires { own_bytes row ≤ length }
    ensures { result ≡ length - own_bytes row }
{
    let own = format::own_bytes(row);
    length - own.0 as usize
}

// 30 to 32 of a file that was read, its rows being the first of the table; or the file without row k.
fn remove(
    file: &[u8],
    k: usize,
    table: &mut [u32],
    nodes: u32,
    flags: u32,
    out: &mut [u8],
) -> Result<u32, Refusal>
    requires { Read file.now table.old nodes flags }
    ensures result { written_told result
        ≡ removal_of (limited file.now).rows k (length (new_file file.now k)) (length out.old) }
    ensures output { out.new ≡ output_left (written_told result).number (new_file file.now k) out.old }
    ensures table { table.new ≡ left_without (written_told result).number file.now k table.old }
    ensures place { (refusal_in result).place ≡ 0 }
{
    let nodes = nodes as usize;
    if nodes <= k {
        return refuse(Reason::NoSuchNode, table);
    }
    let row = table::row_at(table, k);
    if kinds::known(row.kind) {
        return refuse(Reason::KnownKind, table);
    }
    if out.len() < length_without(file.len(), row) {
        return refuse(Reason::TrimOutputTooShort, table);
    }
    let removal = Removal {
        row: k,
        above: row.parent,
        nodes,
    };
    rewrite(file, removal, table, flags, out)
}

// Writes a file without the node of a row, whose kind must be unknown. On success the table has the rows of the new file;
// a refusal but 1 clears it, and each leaves the output.
pub fn trim(file: &[u8], row: usize, table: &mut [u32], out: &mut [u8]) -> Result<u32, Refusal>
    ensures result { written_told result ≡ trimmed_of file.now row table.old (length out.old) }
    ensures output { out.new ≡ trimmed_output file.now row table.old out.old }
    ensures table { table.new ≡ trimmed_table file.now row table.old (length out.old) }
    ensures place { (refusal_in result).place < 2 ^ 32 }
{
    let account = reader::read(file, table)?;
    remove(file, row, table, account.nodes, account.flags, out)
}
