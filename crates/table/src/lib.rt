// The table: rows of eight numbers in a lent slice. No other crate knows where a row's numbers lie.
#![tactic(auto)]

ghost use Rattle.std.specs.Prelude.{◌≡◌, ◌+◌, ◌*◌, ◌≤◌, min, length, get_or};
ghost use Rattle.std.proofs.lemmas.List.Edits.{sets};
ghost use Rattle.base.specs.Limits.{most_rows};
ghost use Rattle.table.specs.Table.{blank, has_row, row_at, rows_at, fields, with_row, has_room, cleared, cleared_from, row_count, is_plan};
ghost use Rattle.table.specs.Counts.{is_counted, counts_under};

// A node: its kind, the halves of its hash, its parent's row (0xFFFFFFFF for none), where its body starts and ends, its
// property count and its child count.
#[derive(Clone, Copy, Debug, Default, PartialEq, Eq)]
pub struct Row {
    pub kind: u32,
    pub low: u32,
    pub high: u32,
    pub parent: u32,
    pub start: u32,
    pub end: u32,
    pub properties: u32,
    pub children: u32,
}

// The parent's row of a node that has no parent, as a number of the table, which is C's too.
pub const NO_PARENT: u32 = 0xFFFF_FFFF;

// A row of zeros.
pub fn blank() -> Row
    ensures { result ≡ blank }
{
    Row::default()
}

// Whether a row lies wholly in the table.
pub fn has_row(table: &[u32], row: usize) -> bool
    ensures { result ≡ has_row table.now row }
{
    row < table.len() / 8
}

// A row of the table; a row of zeros where it does not lie wholly in the table.
pub fn row_at(table: &[u32], row: usize) -> Row
    ensures { result ≡ row_at table.now row }
{
    match table.as_chunks::<8>().0.get(row) {
        Some(&[kind, low, high, parent, start, end, properties, children]) => Row {
            kind,
            low,
            high,
            parent,
            start,
            end,
            properties,
            children,
        },
        None => blank(),
    }
}

// Stores by place: a copy out of an array of the eight is compiled to more work.
fn write_row(table: &mut [u32], row: usize, r: Row)
    requires { row * 8 + 8 ≤ length table.old }
    ensures { table.new ≡ sets table.old (row * 8) (fields r) }
{
    let at = row * 8;
    table[at] = r.kind;
    table[at + 1] = r.low;
    table[at + 2] = r.high;
    table[at + 3] = r.parent;
    table[at + 4] = r.start;
    table[at + 5] = r.end;
    table[at + 6] = r.properties;
    table[at + 7] = r.children;
}

// Puts a row into the table; leaves the table where the row does not lie wholly in it.
pub fn put_row(table: &mut [u32], row: usize, r: Row)
    ensures { table.new ≡ with_row table.old row r }
{
    if has_row(table, row) {
        write_row(table, row, r);
    }
}

// Whether the table takes a file's rows: 8,192 numbers, which are 1,024 rows.
pub fn has_room(table: &[u32]) -> bool
    ensures { result ≡ has_room table.now }
{
    base::TABLE_NUMBERS <= table.len()
}

// Clears the rows: the first 8,192 numbers become 0. A shorter table is left.
pub fn clear(table: &mut [u32])
    ensures { table.new ≡ cleared table.old }
{
    if has_room(table) {
        table[..base::TABLE_NUMBERS].fill(0);
    }
}

// Clears the rows from one on: the numbers from there up to 8,192 become 0. A shorter table is left, and so is one whose
// first 1,024 rows are all before it.
pub fn clear_from(table: &mut [u32], row: usize)
    ensures { table.new ≡ cleared_from row table.old }
{
    if (row <= base::MOST_ROWS) & has_room(table) {
        table[row * 8..base::TABLE_NUMBERS].fill(0);
    }
}

// How many rows lie wholly in some numbers.
pub fn row_count(numbers: &[u32]) -> usize
    ensures { result ≡ row_count numbers.now }
{
    numbers.len() / 8
}

// Whether some numbers are a plan: whole rows, at most 1,024.
pub fn is_plan(numbers: &[u32]) -> bool
    ensures { result ≡ is_plan numbers.now }
{
    (numbers.len() % 8 == 0) & (numbers.len() / 8 <= base::MOST_ROWS)
}

// Whether a row is counted among those of a kind, or among all.
fn is_counted(which: Option<u32>, row: Row) -> bool
    ensures { result ≡ is_counted which row }
{
    which.is_none_or(|kind| row.kind == kind)
}

// Counts, of the first rows of a table, at most 1,024, those of a kind, or all, under each parent: each place p of the counts then
// has the count for row p, whatever it held.
pub fn count_under(numbers: &[u32], rows: usize, which: Option<u32>, counts: &mut [u16])
    ensures { counts.new
        ≡ counts_under which (rows_at numbers.now 0 (min rows most_rows)) (length counts.old) }
{
    let n = rows.min(base::MOST_ROWS);
    counts.fill(0);
    for i in 0..n {
        let row = row_at(numbers, i);
        let parent = row.parent as usize;
        if is_counted(which, row) & (parent < counts.len()) {
            counts[parent] += 1;
        }
    }
}

// What counts tell of a row; 0 of one for which they have no place.
pub fn count_at(counts: &[u16], row: usize) -> u32
    ensures { result ≡ get_or counts.now row 0 }
{
    u32::from(counts.get(row).copied().unwrap_or(0))
}
