// A file that was walked, and its rows.
ghost use Rattle.std.specs.Prelude.{◌≤◌};
ghost use Rattle.base.specs.Limits.{most_rows};
ghost use Rattle.reader.specs.Private.{RowsOk};

// A file, and the table whose first rows are those of its nodes.
#[derive(Clone, Copy)]
pub(crate) struct Walked<'a> {
    pub(crate) file: &'a [u8],
    pub(crate) table: &'a [u32],
    pub(crate) nodes: usize,
    ghost few: { nodes ≤ most_rows },
    ghost rows: { RowsOk file.now table.now nodes },
}
