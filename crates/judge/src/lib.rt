// The rules of properties on one node: refusals 13, 14 and 15, the node's faces and its links.
#![tactic(auto)]

ghost use Rattle.std.specs.Prelude.{◌≡◌, ◌≤◌, [], map, length};
ghost use Rattle.std.proofs.lemmas.List.Edits.{sets};
ghost use Rattle.base.specs.Limits.{most_properties};
ghost use Rattle.body.specs.Body.{skim, skimmed};
ghost use Rattle.rules.specs.Packing.{lines_from};
ghost use Rattle.judge.specs.Properties.{has, line_number};
ghost use Rattle.judge.specs.Typed.{key_at, slot_at, marked, rightly_typed};
ghost use Rattle.judge.specs.Judge.{judged_told, Bounded};
ghost use Rattle.judge.specs.ByLine.{judged_by_line};
ghost use Rattle.judge.specs.Private.{Noted};

use base::{Reason, Refusal};
use properties::Properties;

mod missing;
mod properties;
mod typed;
pub mod valued;

// Whether one of some properties has a name.
fn has(body: &[u8], starts: &[usize], name: &[u8]) -> bool
    ensures { result ≡ has body.now starts.now name.now }
{
    body::first_named(body, starts, name) < starts.len()
}

// What a node's rules give where it breaks none: its faces, how many of them are degenerate, and its links.
#[derive(Clone, Copy, Debug, PartialEq, Eq)]
pub struct Judged {
    pub faces: faces::Faces,
    pub degenerate: u64,
    pub links: u32,
}

// 13, then 14, then 15 of `count` properties.
fn judge_first(
    kind: u32,
    lines: &[rules::Line],
    wanted: usize,
    count: usize,
    body: &[u8],
    bones: u32,
    starts: &mut [usize],
    numbers: &mut [usize],
    keys: &mut [u64],
    marks: &mut [u16],
    mark: u16,
) -> Result<Judged, Refusal>
    requires { (count ≤ most_properties) × (length starts.old ≡ most_properties) × (length numbers.old ≡ most_properties) × (length keys.old ≡ most_properties) × (length marks.old ≡ 1024) }
    ensures result { judged_told result
        ≡ judged_by_line kind wanted (lines_from lines.now) body.now (skim body.now count 0) bones }
    ensures noted { Noted (lines_from lines.now) body.now mark (skim body.now count 0)
        starts.old numbers.old keys.old marks.old
        starts.new numbers.new keys.new marks.new }
    ensures bounds { Bounded (judged_told result) (length body.now) }
{
    let required = typed::typed(lines, body, count, starts, numbers, keys, marks, mark)?;
    let properties = Properties {
        body,
        starts: &starts[..count],
        numbers: &numbers[..count],
    };
    if missing::lacks(kind, wanted, required, &properties) {
        return Err(Reason::Missing.at(0));
    }
    valued::valued(kind, lines, &properties, bones)
}

// Judges a node: a refusal's place is an offset from the node's header. It goes by its kind, the lines of its kind and how many of
// them are required, its property count, its body and the number of Bones beside it. Its properties are found by their headers
// alone, as the walk has judged these: at most 64, none where the count is over that. Noted are, of those before the first that 13
// refuses, where each starts, where its line stands among the lines and the key of its name; and the slots of their names are
// marked. Any mark gives the same answer; one that no slot has yet spares the most comparisons of names.
pub fn judge(
    kind: u32,
    lines: &[rules::Line],
    wanted: usize,
    count: u32,
    body: &[u8],
    bones: u32,
    starts: &mut [usize; 64],
    numbers: &mut [usize; 64],
    keys: &mut [u64; 64],
    marks: &mut [u16; 1024],
    mark: u16,
) -> Result<Judged, Refusal>
    ensures result { judged_told result
        ≡ judged_by_line kind wanted (lines_from lines.now) body.now (skimmed body.now count) bones }
    ensures starts { starts.new
        ≡ sets starts.old 0 (rightly_typed (lines_from lines.now) body.now [] (skimmed body.now count)) }
    ensures numbers { numbers.new
        ≡ sets numbers.old 0 (map (line_number (lines_from lines.now) body.now)
        (rightly_typed (lines_from lines.now) body.now [] (skimmed body.now count))) }
    ensures keys { keys.new
        ≡ sets keys.old 0 (map (key_at body.now)
        (rightly_typed (lines_from lines.now) body.now [] (skimmed body.now count))) }
    ensures marks { marks.new
        ≡ marked mark marks.old (map (slot_at body.now)
        (rightly_typed (lines_from lines.now) body.now [] (skimmed body.now count))) }
    ensures bounds { Bounded (judged_told result) (length body.now) }
{
    let n = if base::MOST_PROPERTIES < count {
        0
    } else {
        count as usize
    };
    judge_first(
        kind, lines, wanted, n, body, bones, starts, numbers, keys, marks, mark,
    )
}
