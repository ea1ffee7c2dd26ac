// The reader: refusals 1 to 17 in order, the rows in the lent table, and the charges.
#![tactic(auto)]

ghost use Rattle.std.specs.Prelude.{◌≡◌, true, ◌+◌, ◌^◌, ◌≤◌, ◌<◌, [], length, get_or, IfOk};
ghost use Rattle.base.specs.Limits.{most_bytes, most_properties, most_rows};
ghost use Rattle.base.specs.Refusals.{refusal_in};
ghost use Rattle.kinds.specs.Kinds.{is_known};
ghost use Rattle.table.specs.Table.{rows_at};
ghost use Rattle.rules.specs.Table.{lines as allLines};
ghost use Rattle.rules.specs.Packing.{lines_from};
ghost use Rattle.judge.specs.Judge.{Bounded};
ghost use Rattle.format.specs.Rows.{body_of, all_own_bytes};
ghost use Rattle.links.specs.Links.{linked_told};
ghost use Rattle.links.specs.Private.{rows_linked};
ghost use Rattle.walk.specs.Walk.{flags_of};
ghost use Rattle.reader.specs.Reading.{judged_with, ruled, own_unknown, checked, reading_of, reading_told, table_after, numbers_of, Small};
ghost use Rattle.reader.specs.Private.{Passed, RowsOk, BonesCounted, has_kind, LinkedOn, continued, target_count, judged_of, RulesTo, AllTo, left_after};

use base::{Reason, Refusal};

mod properties;
mod targets;
mod unjudged;
mod walked;

use properties::Properties;
use targets::Targets;
use walked::Walked;

// What is answered of an accepted file: its nodes and flags; the own bytes of its known and of its unknown nodes; its
// faces, and how many of them are degenerate; its links.
#[derive(Clone, Copy, Debug, PartialEq, Eq)]
pub struct Account {
    pub nodes: u32,
    pub flags: u32,
    pub known: format::OwnBytes,
    pub unknown: format::OwnBytes,
    pub faces: faces::Faces,
    pub degenerate: u64,
    pub links: u32,
}

// ---- 13 to 15

// What a row gives: the judgement of its node, and the links so far, of which the first that fails is kept. Their number is as wide as a
// refusal's place: one stands where the other does, so that both are moved as one word.
#[derive(Clone, Copy, Debug, PartialEq, Eq)]
struct OfRow {
    judged: judge::Judged,
    linked: Result<usize, Refusal>,
}

// The rules of the node in a row, which is known, by all lines, by the Bones under each row, and with buffers for what is noted of its
// properties; and its links by what was noted, after those before it, where none of these failed.
fn judge_row(
    file: &[u8],
    row: table::Row,
    counts: &[u16],
    lines: &[rules::Line],
    starts: &mut [usize; 64],
    numbers: &mut [usize; 64],
    keys: &mut [u64; 64],
    marks: &mut [u16; 1024],
    mark: u16,
    linked: Result<usize, Refusal>,
    targets: Targets,
) -> Result<OfRow, Refusal>
    requires row { (lines_from lines.now ≡ allLines) × Passed file.now row × (is_known row.kind ≡ true) }
    requires sizes { (length starts.old ≡ most_properties) × (length numbers.old ≡ most_properties) }
    requires before { (linked_told linked).links + most_properties < 2 ^ 32 }
    ensures judged { judged_of result ≡ judged_with file.now row (get_or counts.now row.parent 0) }
    ensures bounds { Bounded (judged_of result) (length (body_of file.now row)) }
    ensures linked { IfOk result (λ given. LinkedOn (target_count targets.entry)
        file.now row given.judged.links (linked_told linked) (linked_told given.linked)) }
    ensures links { IfOk result (λ given. (linked_told given.linked).links ≤ (linked_told linked).links + most_properties) }
    ensures sizes { (length starts.new ≡ most_properties) × (length numbers.new ≡ most_properties) }
{
    let body = format::body_of(file, row);
    let own = rules::lines_of(lines, row.kind);
    let judged = judge::judge(
        row.kind,
        own,
        rules::required_of(row.kind),
        row.properties,
        body,
        table::count_at(counts, row.parent as usize),
        starts,
        numbers,
        keys,
        marks,
        mark,
    )?;
    if judged.links == 0 {
        return Ok(OfRow { judged, linked });
    }
    let linked = match linked {
        Ok(before) => {
            let n = row.properties as usize;
            let properties = Properties {
                lines: own,
                start: row.start as usize,
                body,
                starts: &starts[..n],
                numbers: &numbers[..n],
            };
            properties.links(targets, before)
        }
        failed => failed,
    };
    Ok(OfRow { judged, linked })
}

// What some rows give: their faces, and how many of them are degenerate; how many links they have; their links so far, or the first
// that fails; and the own bytes of the unknown nodes.
#[derive(Clone, Copy, Debug, PartialEq, Eq)]
struct Judgement {
    faces: u64,
    degenerate: u64,
    links: u32,
    linked: Result<usize, Refusal>,
    unknown: u64,
}

// The rules and the links, row by row of those that have any: the first link that fails is kept until all rows have passed.
fn rules_of(walked: Walked, counts: &[u16], targets: Targets) -> Result<Judgement, Refusal>
    requires { BonesCounted counts.now (rows_at walked.table.now 0 walked.nodes) }
    ensures result { RulesTo result (ruled walked.entry.file.now
        (rows_at walked.entry.table.now 0 walked.entry.nodes) (rows_at walked.entry.table.now 0 walked.entry.nodes)) }
    ensures place { (refusal_in result).place ≤ length walked.entry.file.now }
    ensures links { IfOk result (λ given. continued
        (target_count targets.entry) walked.entry.file.now (linked_told given.linked) []
        ≡ rows_linked (target_count targets.entry) walked.entry.file.now 0 (rows_at walked.entry.table.now 0 walked.entry.nodes)) }
    ensures unknown { IfOk result (λ given. given.unknown ≡ own_unknown (rows_at walked.entry.table.now 0 walked.entry.nodes)) }
{
    let lines = rules::table();
    let mut starts = [0usize; 64];
    let mut numbers = [0usize; 64];
    let mut keys = [0u64; 64];
    let mut marks = [0u16; 1024];
    let mut linked = Ok(0);
    let mut faces: u64 = 0;
    let mut degenerate: u64 = 0;
    let mut links: u32 = 0;
    let mut unknown: u64 = 0;
    // It goes on from the row that `skip` tells, so that no `for` is plainer.
    let mut from: usize = 0;
    while from < walked.nodes {
        let next = unjudged::skip(walked.table, walked.nodes, from, unknown);
        unknown = next.unknown;
        let i = next.row;
        if walked.nodes <= i {
            break;
        }
        let row = table::row_at(walked.table, i);
        let r = judge_row(
            walked.file,
            row,
            counts,
            lines,
            &mut starts,
            &mut numbers,
            &mut keys,
            &mut marks,
            (i + 1) as u16,
            linked,
            targets,
        )
        .map_err(|refusal| {
            let place = row.start as usize + refusal.place - 24;
            refusal.reason.at(place)
        })?;
        linked = r.linked;
        faces += r.judged.faces.0;
        degenerate += r.judged.degenerate;
        links += r.judged.links;
        from = i + 1;
    }
    Ok(Judgement {
        faces,
        degenerate,
        links,
        linked,
        unknown,
    })
}

// Whether one of the first rows is of a kind.
fn has_kind(table: &[u32], nodes: usize, kind: u32) -> bool
    ensures { result ≡ has_kind kind (rows_at table.now 0 nodes) }
{
    (0..nodes).any(|i| table::row_at(table, i).kind == kind)
}

// The same, once the hashes of the four kinds that links reach are collected and sorted.
fn rules_by_hashes(walked: Walked, counts: &[u16]) -> Result<Judgement, Refusal>
    requires { BonesCounted counts.now (rows_at walked.table.now 0 walked.nodes) }
    ensures { AllTo walked.entry.file.now (rows_at walked.entry.table.now 0 walked.entry.nodes) result }
{
    let mut hashes = [0u64; base::MOST_ROWS];
    let m = targets::collect(walked.table, walked.nodes, kinds::MATERIAL, &mut hashes, 0);
    let s = targets::collect(walked.table, walked.nodes, kinds::MESH, &mut hashes, m);
    let b = targets::collect(walked.table, walked.nodes, kinds::BONE, &mut hashes, s);
    let f = targets::collect(walked.table, walked.nodes, kinds::FILE, &mut hashes, b);
    let targets = Targets::new(&hashes, m, s, b, f);
    rules_of(walked, counts, targets)
}

// Whether a row looks as if it had links. It only spares sorting hashes for nothing.
fn looks_linked(row: table::Row) -> bool {
    let kind = row.kind;
    match kind {
        kinds::MESH | kinds::MATERIAL => 2 < row.properties,
        kinds::BLEND_SHAPE | kinds::IK_HANDLE | kinds::CONSTRAINT | kinds::INSTANCE => true,
        _ => false,
    }
}

fn any_looks_linked(table: &[u32], nodes: usize) -> bool {
    (0..nodes).any(|i| looks_linked(table::row_at(table, i)))
}

// The rules and the links of rows beside which Bones are counted. Where none seems to have links they are judged without hashes, and again with
// them where that was wrong.
fn rules_beside(walked: Walked, bones: &[u16]) -> Result<Judgement, Refusal>
    requires { BonesCounted bones.now (rows_at walked.table.now 0 walked.nodes) }
    ensures { AllTo walked.entry.file.now (rows_at walked.entry.table.now 0 walked.entry.nodes) result }
{
    if any_looks_linked(walked.table, walked.nodes) {
        return rules_by_hashes(walked, bones);
    }
    let none = Targets::new(&[], 0, 0, 0, 0);
    let j = rules_of(walked, bones, none)?;
    if j.links != 0 {
        return rules_by_hashes(walked, bones);
    }
    Ok(Judgement { linked: Ok(0), ..j })
}

// The rules of rows of which some are Bones, which are counted first.
fn rules_with_bones(walked: Walked) -> Result<Judgement, Refusal>
    ensures { AllTo walked.entry.file.now (rows_at walked.entry.table.now 0 walked.entry.nodes) result }
{
    let mut bones = [0u16; base::MOST_ROWS];
    table::count_under(walked.table, walked.nodes, Some(kinds::BONE), &mut bones);
    rules_beside(walked, &bones)
}

// The rules of all rows. Without Bones none are counted, and none are beside a node.
fn all_rules(walked: Walked) -> Result<Judgement, Refusal>
    ensures { AllTo walked.entry.file.now (rows_at walked.entry.table.now 0 walked.entry.nodes) result }
{
    if has_kind(walked.table, walked.nodes, kinds::BONE) {
        return rules_with_bones(walked);
    }
    let none = [0u16; 1];
    rules_beside(walked, &none[..0])
}

// ---- the answer

// 13 to 17 of a file that was walked, its rows being the first of the table. The own bytes of its nodes and 16 are its length, and its links,
// where they resolve, are those that the rules counted.
fn checked(file: &[u8], table: &[u32], nodes: u32, flags: u32) -> Result<Account, Refusal>
    requires nodes_le_most_rows { (nodes ≤ most_rows) × RowsOk file.now table.now nodes × (length file.now ≤ most_bytes) × (flags ≡ flags_of file.now) }
    requires own { 16 + all_own_bytes (rows_at table.now 0 nodes) ≡ length file.now }
    ensures result { reading_told result ≡ checked file.now (rows_at table.now 0 nodes) }
    ensures place { (refusal_in result).place ≤ most_bytes }
{
    let walked = Walked {
        file,
        table,
        nodes: nodes as usize,
    };
    let judged = all_rules(walked)?;
    judged.linked?;
    let unknown = judged.unknown;
    let known = file.len() as u64 - 16 - unknown;
    Ok(Account {
        nodes,
        flags,
        known: format::OwnBytes(known),
        unknown: format::OwnBytes(unknown),
        faces: faces::Faces(judged.faces),
        degenerate: judged.degenerate,
        links: judged.links,
    })
}

// Hands an answer on, and leaves the rows of an accepted file alone in the table, of a refused one none.
fn leave(r: Result<Account, Refusal>, table: &mut [u32], nodes: usize) -> Result<Account, Refusal>
    ensures result { result ≡ r }
    ensures table { table.new ≡ left_after (reading_told r) nodes table.old }
{
    let kept = match r {
        Ok(_) => nodes,
        Err(_) => 0,
    };
    table::clear_from(table, kept);
    r
}

// Reads a file, and puts its rows into the table: zeros after them up to 8,192 numbers, and zeros alone on a refusal. A
// table with fewer numbers is left.
pub fn read(file: &[u8], table: &mut [u32]) -> Result<Account, Refusal>
    ensures result { reading_told result ≡ reading_of file.now table.old }
    ensures numbers { numbers_of (reading_told result) ≡ numbers_of (reading_of file.now table.old) }
    ensures table { table.new ≡ table_after file.now table.old }
    ensures small { Small (reading_told result) }
    ensures place { (refusal_in result).place < 2 ^ 32 }
{
    if !table::has_room(table) {
        return Err(Reason::TableTooShort.at(0));
    }
    match walk::walk(file, table) {
        Ok(w) => {
            let r = checked(file, table, w.nodes, w.flags);
            leave(r, table, w.nodes as usize)
        }
        Err(refusal) => {
            table::clear(table);
            Err(refusal)
        }
    }
}
