// Judging a plan: refusals 21 to 24 of its rows over the source's bytes.
#![tactic(auto)]

ghost use Rattle.std.specs.Prelude.{◌≡◌, ◌≤◌, ◌<◌, min, length};
ghost use Rattle.base.specs.Limits.{most_rows};
ghost use Rattle.base.specs.Refusals.{number_in, refusal_in};
ghost use Rattle.kinds.specs.Kinds.{is_known};
ghost use Rattle.table.specs.Table.{no_parent, rows_at};
ghost use Rattle.plan.specs.Plan.{right_parent, is_on, row_refusal, plan_refusal};
ghost use Rattle.plan.specs.Private.{path_at, Climbs, NamingCounted};

use base::{Reason, Refusal};

// Whether a row is on the path of the row before row `index`; the climb starts at `from`, the first of that path. Over a
// whole plan each row is passed at most once: a row that was passed is on no later path.
fn is_above(plan: &[u32], index: usize, from: u32, row: u32) -> bool
    requires { Climbs plan.now no_parent from (path_at plan.now index) }
    ensures { result ≡ is_on row (path_at plan.now index) }
{
    // A climb, which counts nothing: no `for` is plainer.
    let mut at = from;
    while at != table::NO_PARENT {
        if at == row {
            return true;
        }
        let r = table::row_at(plan, at as usize);
        at = r.parent;
    }
    false
}

fn right_parent(plan: &[u32], index: usize, row: table::Row, from: u32) -> bool
    requires { Climbs plan.now no_parent from (path_at plan.now index) }
    ensures { result ≡ right_parent row (path_at plan.now index) }
{
    let parent = row.parent;
    if row.kind == kinds::ROOT {
        return parent == table::NO_PARENT;
    }
    is_above(plan, index, from, parent)
}

// Judges a row. Whether its kind is known is looked up by the caller, who needs it too.
fn check_row(
    plan: &[u32],
    index: usize,
    row: table::Row,
    known: bool,
    from: u32,
    source: &[u8],
    named: u32,
) -> Result<(), Reason>
    requires { Climbs plan.now no_parent from (path_at plan.now index) × (known ≡ is_known row.kind) }
    ensures { number_in result ≡ row_refusal source.now (path_at plan.now index) named row }
{
    if !right_parent(plan, index, row, from) {
        return Err(Reason::WrongParent);
    }
    if format::is_outside(source.len(), row) {
        return Err(Reason::PlanBodyOutside);
    }
    if !known {
        return Ok(());
    }
    let body = format::body_of(source, row);
    if !body::exact(body, row.properties) {
        return Err(Reason::PlanBodyInexact);
    }
    if row.children != named {
        return Err(Reason::ChildCount);
    }
    Ok(())
}

// The rows in turn: a refusal's place is its row.
fn check_rows(plan: &[u32], rows: usize, source: &[u8], counts: &[u16]) -> Result<(), Refusal>
    requires { (rows ≤ most_rows) × (length counts.now ≡ most_rows) × NamingCounted counts.now (rows_at plan.now 0 rows) }
    ensures { (refusal_in result ≡ plan_refusal source.now (rows_at plan.now 0 rows)) × ((refusal_in result).place < most_rows) }
{
    // The first row on the path of the previous row.
    let mut from = table::NO_PARENT;
    for i in 0..rows {
        let row = table::row_at(plan, i);
        let known = kinds::known(row.kind);
        let naming = table::count_at(counts, i);
        if let Err(why) = check_row(plan, i, row, known, from, source, naming) {
            return Err(why.at(i));
        }
        from = if known { i as u32 } else { row.parent };
    }
    Ok(())
}

// Judges the first rows of a table, at most 1,024, as a plan over the source: the place of the first refusal is its row.
pub fn check(plan: &[u32], rows: usize, source: &[u8]) -> Result<(), Refusal>
    ensures result { refusal_in result ≡ plan_refusal source.now (rows_at plan.now 0 (min rows most_rows)) }
    ensures bound { (refusal_in result).place < most_rows }
{
    let n = rows.min(base::MOST_ROWS);
    let mut counts = [0u16; base::MOST_ROWS];
    table::count_under(plan, n, None, &mut counts);
    check_rows(plan, n, source, &counts)
}
