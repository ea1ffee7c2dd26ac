// Rows of which nothing is judged: unknown nodes, and nodes without properties where none is required.
ghost use Rattle.std.specs.Prelude.{◌≡◌, ◌*◌, ◌^◌, ◌≤◌, ◌<◌};
ghost use Rattle.base.specs.Limits.{most_rows};
ghost use Rattle.kinds.specs.Kinds.{is_known};
ghost use Rattle.reader.specs.Private.{is_judged, unknown_bytes, Skips};

// Whether the node in a row has rules.
fn is_judged(row: table::Row, known: bool) -> bool
    requires { known ≡ is_known row.kind }
    ensures { result ≡ is_judged row }
{
    if !known {
        return false;
    }
    if row.properties != 0 {
        return true;
    }
    rules::required_of(row.kind) != 0
}

// The own bytes of a row whose node is unknown; 0 of another.
fn unknown_bytes(row: table::Row, known: bool) -> u64
    requires { known ≡ is_known row.kind }
    ensures { (result ≡ unknown_bytes row) × (result < 2 ^ 33) }
{
    if known {
        return 0;
    }
    let own = format::own_bytes(row);
    own.0
}

// A row, and the own bytes of the unknown nodes before it.
#[derive(Clone, Copy)]
pub(crate) struct Next {
    pub row: usize,
    pub unknown: u64,
}

// The first row from a given one on that is judged, or the number of all rows; and the own bytes of the unknown nodes before it, from those before the given one.
pub(crate) fn skip(table: &[u32], nodes: usize, from: usize, before: u64) -> Next
    requires { (from ≤ nodes) × (nodes ≤ most_rows) × (before ≤ from * 2 ^ 33) }
    ensures { Skips table.now nodes from before result.row result.unknown }
{
    // A sum of its own, which stays in a register.
    let mut unknown = 0;
    for i in from..nodes {
        let row = table::row_at(table, i);
        let known = kinds::known(row.kind);
        if is_judged(row, known) {
            return Next {
                row: i,
                unknown: before + unknown,
            };
        }
        unknown += unknown_bytes(row, known);
    }
    Next {
        row: nodes,
        unknown: before + unknown,
    }
}
