// The walk over a file's nodes: refusals 2 to 12, and a row for each node.
#![tactic(auto)]

ghost use Rattle.std.specs.Prelude.{◌≡◌, ◌+◌, ◌≤◌, length, drop};
ghost use Rattle.base.specs.Limits.{most_bytes, most_rows};
ghost use Rattle.table.specs.Table.{with_row};
ghost use Rattle.base.specs.Refusals.{number_in, refusal_in};
ghost use Rattle.body.specs.Body.{passed_told};
ghost use Rattle.walk.specs.Walk.{header_at, ill_sized, row_of_header, node_at, children_at, is_cast, limited, answer, answer_told, table_walked};
ghost use Rattle.walk.specs.Private.{refusal_there, passed_at, CameTo};

use base::{Reason, Refusal};
use kinds::Standing;

// The numbers of a node's header, the hash in its halves.
#[derive(Clone, Copy, Debug, PartialEq, Eq)]
pub struct Header {
    pub kind: u32,
    pub size: u32,
    pub low: u32,
    pub high: u32,
    pub properties: u32,
    pub children: u32,
}

// The header at the start of some bytes; zeros for the bytes that are not there.
pub fn header_at(bytes: &[u8]) -> Header
    ensures { result ≡ header_at bytes.now }
{
    Header {
        kind: le::read(bytes, 0),
        size: le::read(bytes, 4),
        low: le::read(bytes, 8),
        high: le::read(bytes, 12),
        properties: le::read(bytes, 16),
        children: le::read(bytes, 20),
    }
}

// Under 24 bytes left, size under 24, or size past the end.
fn ill_sized(size: u32, room: usize) -> bool
    ensures { result ≡ ill_sized size room }
{
    (room < 24) | (size < 24) | (room < size as usize)
}

// What a node's header is refused with, 5 to 8, where `room` bytes are left from it on.
fn check_header(
    size: u32,
    room: usize,
    standing: Standing,
    row: usize,
    depth: u32,
) -> Result<(), Reason>
    ensures { number_in result ≡ refusal_there size room standing row depth }
{
    if ill_sized(size, room) {
        return Err(Reason::NodeSize);
    }
    if standing == Standing::Barred {
        return Err(Reason::Misplaced);
    }
    if base::MOST_ROWS <= row {
        return Err(Reason::TooManyNodes);
    }
    if 8 < depth {
        return Err(Reason::TooDeep);
    }
    Ok(())
}

// Where the properties of a known node at `at` end, in what follows its header; or 9 at the node, or 10 or 11 at a property.
// Without any, the body is not looked at.
fn pass_properties(inside: &[u8], at: usize, count: u32) -> Result<usize, Refusal>
    requires { at + 24 + length inside.now ≤ most_bytes }
    ensures { passed_told result ≡ passed_at at inside.now count }
{
    let start = at + 24;
    if count == 0 {
        return Ok(start);
    }
    if base::MOST_PROPERTIES < count {
        return Err(Reason::TooManyProperties.at(at));
    }
    match body::pass(inside, count) {
        Ok(end) => Ok(start + end),
        Err(refusal) => Err(refusal.reason.at(start + refusal.place)),
    }
}

// Where a walk came to, just past what it walked, and how many rows the table then has.
#[derive(Clone, Copy, Debug, PartialEq, Eq)]
struct Reached {
    at: usize,
    rows: usize,
}

// Puts a node's row into the table. Its hash is read here, from the header's bytes, so that nothing holds it while the node is judged.
fn put_node(
    table: &mut [u32],
    row: usize,
    h: Header,
    head: &[u8],
    above: u32,
    start: usize,
    end: usize,
)
    requires { (h ≡ header_at head.now) × (start ≤ most_bytes) × (end ≤ most_bytes) }
    ensures { table.new ≡ with_row table.old row (row_of_header h above start end) }
{
    let r = table::Row {
        kind: h.kind,
        low: le::read(head, 8),
        high: le::read(head, 12),
        parent: above,
        start: start as u32,
        end: end as u32,
        properties: h.properties,
        children: h.children,
    };
    table::put_row(table, row, r);
}

// What a node lies in: the kind and the row of the node around it; and the node's own depth, at most one more than the last that is allowed.
#[derive(Clone, Copy, Debug, PartialEq, Eq)]
struct Around {
    kind: Option<u32>,
    row: u32,
    depth: u32,
    ghost shallow: { depth ≤ 9 },
}

// The node at `at`, whose row is `row`. The bytes are the file's, up to where what encloses the node ends.
#[cycle(walk_children_walk_node)]
fn walk_node(
    bytes: &[u8],
    table: &mut [u32],
    around: Around,
    at: usize,
    row: usize,
) -> Result<Reached, Refusal>
    requires { (at ≤ length bytes.now) × (length bytes.now ≤ most_bytes) × (row ≤ most_rows) }
    ensures { CameTo result
        (node_at around.kind around.row around.depth at row (drop at bytes.now))
        at row (drop at bytes.now) table.old table.new }
{
    let room = bytes.len() - at;
    if room < 24 {
        return Err(Reason::NodeSize.at(at));
    }
    let start = at + 24;
    let head = &bytes[at..start];
    let h = header_at(head);
    // Told before the kind is looked at, so that what that tells is tested at once.
    if ill_sized(h.size, room) {
        return Err(Reason::NodeSize.at(at));
    }
    let standing = kinds::standing_of(around.kind, h.kind);
    check_header(h.size, room, standing, row, around.depth).map_err(|why| why.at(at))?;
    let size = h.size as usize;
    let past = at + size;
    let rows = row + 1;
    if standing == Standing::Unknown {
        put_node(table, row, h, head, around.row, start, past);
        return Ok(Reached { at: past, rows });
    }
    let end = pass_properties(&bytes[start..past], at, h.properties)?;
    put_node(table, row, h, head, around.row, start, end);
    if h.children == 0 {
        if end < past {
            return Err(Reason::BytesLeft.at(end));
        }
        return Ok(Reached { at: end, rows });
    }
    let inner = Around {
        kind: Some(h.kind),
        row: row as u32,
        depth: around.depth + 1,
    };
    walk_children(&bytes[..past], table, inner, end, rows, h.children)
}

// `count` nodes, one after the other, from `start` on, which fill the bytes. The first one's row is `row`.
#[cycle(walk_children_walk_node)]
fn walk_children(
    bytes: &[u8],
    table: &mut [u32],
    around: Around,
    start: usize,
    row: usize,
    count: u32,
) -> Result<Reached, Refusal>
    requires { (start ≤ length bytes.now) × (length bytes.now ≤ most_bytes) × (row ≤ most_rows) }
    ensures { CameTo result
        (children_at around.kind around.row around.depth count start row (drop start bytes.now))
        start row (drop start bytes.now) table.old table.new }
{
    let mut at = start;
    let mut rows = row;
    for _ in 0..count {
        let w = walk_node(bytes, table, around, at, rows)?;
        at = w.at;
        rows = w.rows;
    }
    if at < bytes.len() {
        return Err(Reason::BytesLeft.at(at));
    }
    Ok(Reached { at, rows })
}

// What a walk over a file answers: how many nodes it has, and its flags.
#[derive(Clone, Copy, Debug, PartialEq, Eq)]
pub struct Walked {
    pub nodes: u32,
    pub flags: u32,
}

// Whether the file has a header, and its first four bytes are right.
fn is_cast(file: &[u8]) -> bool
    ensures { result ≡ is_cast file.now }
{
    (16 <= file.len()) & (le::read::<u32>(file, 0) == format::FIRST_FOUR)
}

// Walks over a file, and puts a row for each node into the table, as far as it lies in it. A refused file leaves the rows of
// the nodes whose body's end was found.
pub fn walk(file: &[u8], table: &mut [u32]) -> Result<Walked, Refusal>
    ensures result { answer_told result ≡ answer file.now }
    ensures table { table.new ≡ table_walked file.now table.old }
    ensures bound { length (limited file.now).rows ≤ most_rows }
    ensures place { (refusal_in result).place ≤ most_bytes }
{
    if base::MOST_BYTES < file.len() {
        return Err(Reason::FileTooLong.at(0));
    }
    if !is_cast(file) {
        return Err(Reason::NotCast.at(0));
    }
    if le::read::<u32>(file, 4) != 1 {
        return Err(Reason::OtherVersion.at(4));
    }
    let roots: u32 = le::read(file, 8);
    let flags: u32 = le::read(file, 12);
    let outermost = Around {
        kind: None,
        row: table::NO_PARENT,
        depth: 1,
    };
    let w = walk_children(file, table, outermost, 16, 0, roots)?;
    let nodes = w.rows as u32;
    Ok(Walked { nodes, flags })
}
