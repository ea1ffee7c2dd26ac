// The listing of a file: its lines as text in a lent buffer, one at a time or all of them.
#![tactic(auto)]

ghost use Rattle.std.specs.Prelude.{◌≡◌, ◌++◌, ◌+◌, ◌*◌, ◌≤◌, ◌<◌, length, take};
ghost use Rattle.std.proofs.lemmas.List.Edits.{sets};
ghost use Rattle.text.specs.Text.{place_after, with_text, decimal};
ghost use Rattle.table.specs.Table.{rows_at};
ghost use Rattle.base.specs.Letters.{letters};
ghost use Rattle.reader.specs.Reading.{Accepted, Small};
ghost use Rattle.listing.specs.declared.TextLine.TheVariants.{Summary, Node, Total};
ghost use Rattle.listing.specs.Private.{Puts, PutsWhole};
ghost use Rattle.listing.specs.Listing.{parent_text, newline, text_of, node_lines, foot_lines, file_lines, printed, listing_of};

// A line of the listing.
#[derive(Clone, Copy)]
pub enum TextLine {
    // The first line of an accepted file: its flags, nodes and bytes.
    Summary {
        flags: u32,
        nodes: u32,
        bytes: u64,
    },
    // The node in a row, and the row's number.
    Node {
        index: u32,
        row: table::Row,
    },
    // The bytes of the file header.
    FileHeader,
    // Faces, and how many of them are degenerate.
    Faces {
        faces: faces::Faces,
        degenerate: u64,
    },
    // The bytes of the file header and of all nodes.
    Total(u64),
    // The only line of a refused file.
    Refusal {
        number: u32,
        place: u32,
    },
    // The only line of an input over 32,768 bytes.
    TooLong,
}

// ---- lines

// How many letters a row's parent has.
fn parent_size(parent: u32) -> usize
    ensures { (result ≡ length (parent_text parent)) × (result ≤ 20) }
{
    if parent == table::NO_PARENT {
        return 1;
    }
    text::decimal_size(parent as u64)
}

// How many bytes a line has: the letters of its labels and the newline, in a row also the kind's eight digits, and then the
// digits of its numbers.
pub fn size(line: TextLine) -> usize
    ensures { (result ≡ length (text_of line)) × (result ≤ 92) }
{
    match line {
        TextLine::Summary {
            flags,
            nodes,
            bytes,
        } => 28
            + text::decimal_size(flags as u64)
            + text::decimal_size(nodes as u64)
            + text::decimal_size(bytes),
        TextLine::Node { index, row } => {
            let own = format::own_bytes(row);
            32 + text::decimal_size(index as u64)
                + parent_size(row.parent)
                + text::decimal_size(own.0)
        }
        TextLine::FileHeader => 10,
        TextLine::Faces { faces, degenerate } => 19
            + text::decimal_size(faces.0)
            + text::decimal_size(degenerate),
        TextLine::Total(bytes) => 7 + text::decimal_size(bytes),
        TextLine::Refusal { number, place } => 13
            + text::decimal_size(number as u64)
            + text::decimal_size(place as u64),
        TextLine::TooLong => 9,
    }
}

fn put_summary(out: &mut [u8], at: usize, flags: u32, nodes: u32, bytes: u64) -> usize
    requires { at + length (text_of (Summary flags nodes bytes)) ≤ length out.old }
    ensures { Puts out.old at (text_of (Summary flags nodes bytes)) result out.new }
{
    let a = text::put_decimal(out, at, b"cast 1 flags ", flags as u64);
    let b = text::put_decimal(out, a, b" nodes ", nodes as u64);
    let c = text::put_decimal(out, b, b" bytes ", bytes);
    text::put(out, c, b"\n")
}

fn put_parent(out: &mut [u8], at: usize, parent: u32) -> usize
    requires { at + length (letters " parent " ++ parent_text parent) ≤ length out.old }
    ensures { Puts out.old at (letters " parent " ++ parent_text parent) result out.new }
{
    if parent == table::NO_PARENT {
        return text::put(out, at, b" parent -");
    }
    text::put_decimal(out, at, b" parent ", parent as u64)
}

fn put_node_line(out: &mut [u8], at: usize, index: u32, row: table::Row) -> usize
    requires { at + length (text_of (Node index row)) ≤ length out.old }
    ensures { Puts out.old at (text_of (Node index row)) result out.new }
{
    let own = format::own_bytes(row);
    let a = text::put_decimal(out, at, b"row ", index as u64);
    let b = text::put_hexadecimal(out, a, b" kind ", row.kind);
    let c = put_parent(out, b, row.parent);
    let d = text::put_decimal(out, c, b" own ", own.0);
    text::put(out, d, b"\n")
}

// Two labels, a number in decimal after each, and the line's end.
fn put_pair(out: &mut [u8], at: usize, a: &[u8], m: u64, b: &[u8], n: u64) -> usize
    requires { at + length (a.now ++ decimal m ++ (b.now ++ decimal n) ++ newline) ≤ length out.old }
    ensures { Puts out.old at (a.now ++ decimal m ++ (b.now ++ decimal n) ++ newline) result out.new }
{
    let next = text::put_decimal(out, at, a, m);
    let last = text::put_decimal(out, next, b, n);
    text::put(out, last, b"\n")
}

fn put_total(out: &mut [u8], at: usize, bytes: u64) -> usize
    requires { at + length (text_of (Total bytes)) ≤ length out.old }
    ensures { Puts out.old at (text_of (Total bytes)) result out.new }
{
    let a = text::put_decimal(out, at, b"total ", bytes);
    text::put(out, a, b"\n")
}

// Puts a line that has room, and answers the place after it.
fn put_line(out: &mut [u8], at: usize, line: TextLine) -> usize
    requires { at + length (text_of line) ≤ length out.old }
    ensures { Puts out.old at (text_of line) result out.new }
{
    match line {
        TextLine::Summary {
            flags,
            nodes,
            bytes,
        } => put_summary(out, at, flags, nodes, bytes),
        TextLine::Node { index, row } => put_node_line(out, at, index, row),
        TextLine::FileHeader => text::put(out, at, b"header 16\n"),
        TextLine::Faces { faces, degenerate } => put_pair(
            out,
            at,
            b"faces ",
            faces.0,
            b" degenerate ",
            degenerate,
        ),
        TextLine::Total(bytes) => put_total(out, at, bytes),
        TextLine::Refusal { number, place } => put_pair(
            out,
            at,
            b"refused ",
            number as u64,
            b" at ",
            place as u64,
        ),
        TextLine::TooLong => text::put(out, at, b"too long\n"),
    }
}

// Puts a line at the start of the buffer where it has room for all of it, and answers its length. Else it answers 0 and
// leaves the buffer.
pub fn put(out: &mut [u8], line: TextLine) -> usize
    ensures length { result ≡ place_after out.old 0 (text_of line) }
    ensures output { out.new ≡ with_text out.old 0 (text_of line) }
{
    if out.len() < size(line) {
        return 0;
    }
    put_line(out, 0, line)
}

// ---- the whole

// How many bytes the lines of the first `nodes` rows have.
fn nodes_size(table: &[u32], nodes: u32) -> usize
    ensures { (result ≡ length (printed (node_lines 0 (rows_at table.now 0 nodes)))) × (result ≤ 92 * nodes) }
{
    let mut sum = 0;
    for index in 0..nodes {
        let row = table::row_at(table, index as usize);
        sum += size(TextLine::Node { index, row });
    }
    sum
}

// Puts the lines of the first `nodes` rows, which have room, and answers the place after them.
fn put_node_lines(out: &mut [u8], at: usize, table: &[u32], nodes: u32) -> usize
    requires { at + length (printed (node_lines 0 (rows_at table.now 0 nodes))) ≤ length out.old }
    ensures { Puts out.old at (printed (node_lines 0 (rows_at table.now 0 nodes))) result out.new }
{
    let mut next = at;
    for index in 0..nodes {
        let row = table::row_at(table, index as usize);
        next = put_line(out, next, TextLine::Node { index, row });
    }
    next
}

// How many bytes the last three lines have.
fn foot_size(triangles: faces::Faces, degenerate: u64, total: u64) -> usize
    ensures { (result ≡ length (printed (foot_lines triangles degenerate total))) × (result ≤ 276) }
{
    let counts = TextLine::Faces {
        faces: triangles,
        degenerate,
    };
    size(TextLine::FileHeader) + size(counts) + size(TextLine::Total(total))
}

// Puts the last three lines, which have room, and answers the place after them.
fn put_foot(
    out: &mut [u8],
    at: usize,
    triangles: faces::Faces,
    degenerate: u64,
    total: u64,
) -> usize
    requires { at + length (printed (foot_lines triangles degenerate total)) ≤ length out.old }
    ensures { Puts out.old at (printed (foot_lines triangles degenerate total)) result out.new }
{
    let counts = TextLine::Faces {
        faces: triangles,
        degenerate,
    };
    let next = put_line(out, at, TextLine::FileHeader);
    let last = put_line(out, next, counts);
    put_line(out, last, TextLine::Total(total))
}

// Puts the listing of an accepted file of this length, where there is room for all of it.
fn accepted(out: &mut [u8], bytes: u64, table: &[u32], a: reader::Account) -> usize
    requires { Small (Accepted a) }
    ensures { PutsWhole out.old
        (printed (file_lines bytes (Accepted a) (rows_at table.now 0 a.nodes))) result out.new }
{
    let known = a.known;
    let unknown = a.unknown;
    let triangles = a.faces;
    let total = 16 + (known.0 + unknown.0);
    let head = TextLine::Summary {
        flags: a.flags,
        nodes: a.nodes,
        bytes,
    };
    let foot = foot_size(triangles, a.degenerate, total);
    if out.len() < size(head) + nodes_size(table, a.nodes) + foot {
        return 0;
    }
    let next = put_line(out, 0, head);
    let last = put_node_lines(out, next, table, a.nodes);
    put_foot(out, last, triangles, a.degenerate, total)
}

// Puts the listing of an input at the start of the buffer where it has room for all of it, and answers its length. Else it
// answers 0 and leaves the buffer.
pub fn list(input: &[u8], out: &mut [u8]) -> usize
    ensures length { result ≡ place_after out.old 0 (listing_of input.now) }
    ensures output { out.new ≡ with_text out.old 0 (listing_of input.now) }
{
    if 32768 < input.len() {
        return put(out, TextLine::TooLong);
    }
    let mut table = [0u32; base::TABLE_NUMBERS];
    match reader::read(input, &mut table) {
        Ok(account) => accepted(out, input.len() as u64, &table, account),
        Err(refusal) => put(
            out,
            TextLine::Refusal {
                number: refusal.reason.number(),
                place: refusal.place as u32,
            },
        ),
    }
}

// Puts the listing of the first n bytes of what was read, and answers its length. What was read has room for one byte more
// than a file may have, and the buffer for any listing.
pub fn list_read(read: &[u8; 32769], n: usize, out: &mut [u8; 98304]) -> usize
    ensures length { result ≡ length (listing_of (take n read.now)) }
    ensures output { out.new ≡ sets out.old 0 (listing_of (take n read.now)) }
    ensures within { result ≤ length out.new }
{
    list(&read[..n.min(read.len())], out)
}
