// The rules of properties: one constant table, a line for each kind and name.
#![tactic(auto)]

ghost use Rattle.std.specs.Prelude.{◌≡◌, ◌≤◌, ◌<◌, map, length, get_or};
ghost use Rattle.std.specs.List.{list_any, position};
ghost use Rattle.rules.specs.Table.{lines, free};
ghost use Rattle.rules.specs.Packing.{strings_of, types_from, line_of, lines_from};
ghost use Rattle.rules.specs.Rules.{is_n, takes, misfits, lists, find_in, lines_of, required_in, span_of, rows_of, is_text, is_one_of};

mod lines;
pub mod places;

// The types of a property.
#[derive(Clone, Copy, Debug, PartialEq, Eq)]
pub enum Types {
    Only(u16), // one, by its code
    N, // b h i
    Key, // b h i f v4
    Any, // of a name that is not listed
}

// The sets of strings.
#[derive(Clone, Copy, Debug, PartialEq, Eq)]
pub enum Set {
    Skinning,
    Constraints,
    KeyProperties,
    Modes,
    Axes,
}

// What else a property is held to.
#[derive(Clone, Copy, Debug, PartialEq, Eq)]
pub enum Held {
    Nothing,
    Flag, // 0 or 1
    OneOf(Set), // one of a set of strings
    Vertices, // length V
    Weights, // length mi times V
    Faces, // three values a face, each below V
    Indices, // length of vi
    Keys, // length of kb, and the type that kp wants
    BoneNumber, // -1, or the number of a Bone
    Link(u32), // a link to a kind
}

// A line of the table. Where it is numbered, its name is what comes before the number, `%d`.
#[derive(Clone, Copy, Debug)]
pub struct Line {
    pub kind: u32,
    pub name: &'static [u8],
    pub numbered: bool,
    pub types: Types,
    pub array: bool,
    pub required: bool,
    pub held: Held,
}

// Whether a type is one of b h i.
fn is_n(code: u16) -> bool
    ensures { result ≡ is_n code }
{
    (code == props::BYTE) | (code == props::SHORT) | (code == props::INT)
}

// Whether the types of a line have a type.
pub fn takes(types: Types, code: u16) -> bool
    ensures { result ≡ takes (types_from types) code }
{
    match types {
        Types::Only(only) => code == only,
        Types::N => is_n(code),
        Types::Key => is_n(code) | (code == props::FLOAT) | (code == props::V4),
        Types::Any => true,
    }
}

// Whether a listed name has another type or length.
pub fn misfits(line: Line, code: u16, elements: u32) -> bool
    ensures { result ≡ misfits (line_of line) code elements }
{
    !takes(line.types, code) | (!line.array & (elements != 1))
}

// Whether a line has a name. On its own, and out of the way, so that the search for a line is a loop that reads little else than first
// letters.
#[cold]
#[inline(never)]
#[tactic(auto, unfolding(crate::specs::Rules::lists))]
fn has_whole_name(line: &Line, name: &[u8]) -> bool
    ensures { result ≡ lists (line_of line.now) name.now }
{
    if line.numbered {
        names::number_after(name, line.name).is_some()
    } else {
        names::same(name, line.name)
    }
}

// The same of a name that starts with this letter, or with zero where it is empty. Most lines of a kind differ in the first letter, so
// that nothing else of them is read; and the first letter of a name of one is all of it.
fn has_name(line: &Line, name: &[u8], letter: u8) -> bool
    requires { letter ≡ get_or name.now 0 0 }
    ensures { result ≡ lists (line_of line.now) name.now }
{
    let own = line.name;
    if !own.is_empty() && own[0] != letter {
        return false;
    }
    if own.len() == 1 && name.len() == 1 && !line.numbered {
        return true;
    }
    has_whole_name(line, name)
}

// The place of the first of some lines that has a name.
fn position(lines: &[Line], name: &[u8]) -> Option<usize>
    ensures { result ≡ position (λ l. lists (line_of l) name.now) lines.now }
{
    let letter = name.first().copied().unwrap_or(0);
    lines.iter().position(|line| has_name(line, name, letter))
}

// The same place; their number where none has the name.
pub fn line_named(lines: &[Line], name: &[u8]) -> usize
    ensures { result ≡ find_in (lines_from lines.now) name.now }
{
    position(lines, name).unwrap_or(lines.len())
}

// The line at a place among some; past their end, that of the names that are not listed.
#[tactic(auto, unfolding(base::specs::Letters::letters))]
pub fn line_in(lines: &[Line], i: usize) -> Line
    ensures line { line_of result ≡ get_or (lines_from lines.now) i free }
    ensures entry { i < length lines.now → result ≡ get_or lines.now i result }
{
    lines.get(i).copied().unwrap_or(lines::FREE)
}

// Lines of the table, from one place up to another.
#[derive(Clone, Copy)]
struct Span {
    from: usize,
    to: usize,
}

// Where the lines of a kind stand.
#[tactic(auto, using(crate::proofs::Spans::nowhere), unfolding(crate::specs::Table::lines, crate::specs::Rules::before, crate::specs::Rules::run, crate::specs::Rules::span_of))]
fn span_of(kind: u32) -> Span
    ensures { (result ≡ span_of kind) × (result.from ≤ result.to) × (result.to ≤ 81) }
{
    match kind {
        kinds::MODEL => Span { from: 0, to: 1 },
        kinds::MESH => Span { from: 1, to: 15 },
        kinds::BLEND_SHAPE => Span { from: 15, to: 20 },
        kinds::BONE => Span { from: 20, to: 28 },
        kinds::IK_HANDLE => Span { from: 28, to: 35 },
        kinds::CONSTRAINT => Span { from: 35, to: 43 },
        kinds::MATERIAL => Span { from: 43, to: 56 },
        kinds::FILE => Span { from: 56, to: 57 },
        kinds::ANIMATION => Span { from: 57, to: 60 },
        kinds::CURVE => Span { from: 60, to: 66 },
        kinds::CURVE_MODE_OVERRIDE => Span { from: 66, to: 71 },
        kinds::NOTIFICATION_TRACK => Span { from: 71, to: 73 },
        kinds::INSTANCE => Span { from: 73, to: 78 },
        kinds::METADATA => Span { from: 78, to: 81 },
        _ => Span { from: 81, to: 81 },
    }
}

// All lines, which a reading lends: a read of the constant itself at a place that is not known would write it out first.
pub fn table() -> &'static [Line]
    ensures { lines_from result.now ≡ lines }
{
    &lines::LINES
}

// The lines of a kind among all; of other rows, those at the same places, where there are as many.
#[tactic(auto, unfolding(crate::specs::Rules::rows_of))]
pub fn lines_of(rows: &[Line], kind: u32) -> &[Line]
    ensures { result.now ≡ rows_of kind rows.now }
{
    let span = span_of(kind);
    rows.get(span.from..span.to).unwrap_or(&[])
}

// How many of the lines of a kind are required.
#[tactic(auto, using(crate::proofs::Required::none_required), unfolding(crate::specs::Table::lines, crate::specs::Rules::of_kind, crate::specs::Rules::lines_of, crate::specs::Rules::required_in))]
pub fn required_of(kind: u32) -> usize
    ensures { result ≡ required_in (lines_of kind) }
{
    match kind {
        kinds::MESH => 2,
        kinds::BLEND_SHAPE => 4,
        kinds::BONE => 1,
        kinds::IK_HANDLE => 2,
        kinds::CONSTRAINT => 3,
        kinds::MATERIAL => 2,
        kinds::FILE => 1,
        kinds::ANIMATION => 1,
        kinds::CURVE => 5,
        kinds::CURVE_MODE_OVERRIDE => 2,
        kinds::NOTIFICATION_TRACK => 2,
        kinds::INSTANCE => 4,
        _ => 0,
    }
}

// Whether a string stands at the start of some bytes: its letters, and then a zero.
#[tactic(auto, unfolding(crate::specs::Rules::is_text))]
pub fn is_text(bytes: &[u8], string: &[u8]) -> bool
    ensures { result ≡ is_text bytes.now string.now }
{
    let n = string.len();
    if bytes.len() <= n {
        return false;
    }
    names::same(&bytes[..n], string) & (bytes[n] == 0)
}

// The strings of a set.
#[tactic(auto, unfolding(base::specs::Letters::letters))]
fn strings_of(set: Set) -> &'static [&'static [u8]]
    ensures { map (λ s. s.now) result.now ≡ strings_of set }
{
    match set {
        Set::Skinning => &lines::SKINNING,
        Set::Constraints => &lines::CONSTRAINTS,
        Set::KeyProperties => &lines::KEY_PROPERTIES,
        Set::Modes => &lines::MODES,
        Set::Axes => &lines::AXES,
    }
}

// Whether one of some strings stands there.
fn some_stands(strings: &[&[u8]], bytes: &[u8]) -> bool
    ensures { result ≡ list_any (λ s. is_text bytes.now s.now) strings.now }
{
    strings.iter().any(|string| is_text(bytes, string))
}

// Whether the string at the start of some bytes is of a set.
pub fn one_of(set: Set, bytes: &[u8]) -> bool
    ensures { result ≡ is_one_of (strings_of set) bytes.now }
{
    some_stands(strings_of(set), bytes)
}
