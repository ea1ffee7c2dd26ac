// A property by name: in any bytes, by any table and any row.
#![tactic(auto)]

ghost use Rattle.std.specs.Prelude.{◌≡◌, length};
ghost use Rattle.lookup.specs.Lookup.{in_body, lookup_of, found_told, FoundWithin, number_of, part_of};

use base::Reason;
use body::Sought;

// Where a property's data lies.
#[derive(Clone, Copy, Debug, PartialEq, Eq)]
pub struct Found {
    pub start: usize,
    pub end: usize,
}

// The property in a body that should be a given number of properties: 42 and 43. One pass: the names are compared up to the
// first that is the same, and what follows that property is judged without.
fn in_body(body: &[u8], count: u32, name: &[u8]) -> Result<Found, Reason>
    ensures { found_told result ≡ in_body body.now count name.now }
{
    if base::MOST_PROPERTIES < count {
        return Err(Reason::BodyInexact);
    }
    match body::seek(body, count, name) {
        Ok(Sought::Found { start, end, left }) => {
            if !body::exact(&body[end..], left) {
                return Err(Reason::BodyInexact);
            }
            Ok(Found { start, end })
        }
        Ok(Sought::Nowhere(at)) => {
            if at != body.len() {
                return Err(Reason::BodyInexact);
            }
            Err(Reason::NoSuchName)
        }
        Err(_) => Err(Reason::BodyInexact),
    }
}

// Finds the property of a row, and answers where its data lies: 40 to 43.
pub fn find(bytes: &[u8], table: &[u32], row: usize, name: &[u8]) -> Result<Found, Reason>
    ensures result { found_told result ≡ lookup_of bytes.now table.now row name.now }
    ensures within { FoundWithin (length bytes.now) (found_told result) }
    ensures number { number_of (found_told result) ≡ number_of (lookup_of bytes.now table.now row name.now) }
    ensures part { part_of bytes.now (found_told result)
        ≡ part_of bytes.now (lookup_of bytes.now table.now row name.now) }
{
    if !table::has_row(table, row) {
        return Err(Reason::NoSuchRow);
    }
    let r = table::row_at(table, row);
    if format::is_outside(bytes.len(), r) {
        return Err(Reason::BodyOutside);
    }
    let from = r.start as usize;
    let found = in_body(format::body_of(bytes, r), r.properties, name)?;
    let start = from + found.start;
    let end = from + found.end;
    Ok(Found { start, end })
}

// The property's data, a part of the bytes; an empty part on refusal.
pub fn data<'a>(bytes: &'a [u8], table: &[u32], row: usize, name: &[u8]) -> &'a [u8]
    ensures { result.now ≡ part_of bytes.now (lookup_of bytes.now table.now row name.now) }
{
    let Ok(found) = find(bytes, table, row, name) else {
        return &bytes[0..0];
    };
    &bytes[found.start..found.end]
}
