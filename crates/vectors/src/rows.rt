// The table, and the lookup that goes by one.
ghost use Rattle.std.specs.Prelude.{◌≡◌, length};
ghost use Rattle.lookup.specs.Lookup.{found_told};
ghost use Rattle.vectors.specs.Answers.{answered};
ghost use Rattle.vectors.specs.Buffers.{numbers_in};
ghost use Rattle.vectors.specs.Rows.{row_in, seen_numbers, row_table, table_line, found_numbers, lookup_numbers, query_line, row_line};

use crate::answer::Answer;
use crate::frame::Frame;
use crate::{answer, buffers};

// 19: the table in the first block; row x read, then put from the second block, then all rows cleared.
// 20: bytes in the first block; y numbers of a table and then a name in the second; row x.
pub fn run(f: Frame, first: &[u8], second: &[u8]) -> Answer
    ensures { result ≡ answered (row_line f first.now second.now) }
{
    let row = f.x as usize;
    if f.function == 19 {
        return table(row, first, second);
    }
    query(first, second, f.y as usize, row)
}

// A table over 8,300 numbers is not lent.
fn table(row: usize, numbers: &[u8], fields: &[u8]) -> Answer
    ensures { result ≡ answered (table_line row numbers.now fields.now) }
{
    let n = numbers.len() / 4;
    if 8300 < n {
        return Answer::none();
    }
    let mut space = buffers::space(0);
    lent(&mut space[..n], row, numbers, fields)
}

fn lent(table: &mut [u32], row: usize, numbers: &[u8], fields: &[u8]) -> Answer
    ensures { let t = numbers_in numbers.now (length table.old) in result ≡ answered (row_table t row (row_in fields.now)) }
{
    buffers::numbers(table, numbers);
    let seen = seen(table, row);
    table::put_row(table, row, parsed(fields));
    let put = buffers::checksum(table);
    table::clear(table);
    seen.extend(&[put, buffers::checksum(table)])
}

// Whether the row is there, its numbers, and whether the table has room.
fn seen(table: &[u32], row: usize) -> Answer
    ensures { result ≡ answered (seen_numbers table.now row) }
{
    let there = Answer::truth(table::has_row(table, row));
    let r = table::row_at(table, row);
    there
        .extend(&[r.kind as u64, r.low as u64, r.high as u64, r.parent as u64])
        .extend(&[
            r.start as u64,
            r.end as u64,
            r.properties as u64,
            r.children as u64,
        ])
        .push(answer::bit(table::has_room(table)))
}

// A row from its eight numbers.
pub fn parsed(fields: &[u8]) -> table::Row
    ensures { result ≡ row_in fields.now }
{
    table::Row {
        kind: le::read(fields, 0),
        low: le::read(fields, 4),
        high: le::read(fields, 8),
        parent: le::read(fields, 12),
        start: le::read(fields, 16),
        end: le::read(fields, 20),
        properties: le::read(fields, 24),
        children: le::read(fields, 28),
    }
}

// Nor is one that the block does not have whole.
fn query(bytes: &[u8], second: &[u8], n: usize, row: usize) -> Answer
    ensures { result ≡ answered (query_line bytes.now second.now n row) }
{
    if 8300 < n {
        return Answer::none();
    }
    let end = n * 4;
    if second.len() < end {
        return Answer::none();
    }
    let mut space = buffers::space(0);
    lookup(&mut space[..n], bytes, row, second, &second[end..])
}

// The table's numbers come first in the block.
fn lookup(table: &mut [u32], bytes: &[u8], row: usize, block: &[u8], name: &[u8]) -> Answer
    ensures { let t = numbers_in block.now (length table.old) in result ≡ answered (lookup_numbers bytes.now t row name.now) }
{
    buffers::numbers(table, block);
    found(bytes, table, row, name)
}

fn found(bytes: &[u8], table: &[u32], row: usize, name: &[u8]) -> Answer
    ensures { result ≡ answered (lookup_numbers bytes.now table.now row name.now) }
{
    let place = place(lookup::find(bytes, table, row, name));
    place.push(buffers::checksum(lookup::data(bytes, table, row, name)))
}

// The refusal's number, a place of 0, and where the data lies.
fn place(found: Result<lookup::Found, base::Reason>) -> Answer
    ensures { result ≡ answered (found_numbers (found_told found)) }
{
    match found {
        Ok(found) => Answer::of(&[0, 0, found.start as u64, found.end as u64]),
        Err(why) => Answer::of(&[why.number() as u64, 0, 0, 0]),
    }
}
