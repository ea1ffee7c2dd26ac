// 13: a name twice on a node, a listed name with another type or length.
ghost use Rattle.std.specs.Prelude.{◌≡◌, ◌+◌, ◌<◌, ◌≤◌, true, false, [], map, length, IfOk};
ghost use Rattle.base.specs.Limits.{most_properties};
ghost use Rattle.base.specs.Refusals.{refusal_in};
ghost use Rattle.props.specs.Step.{name_at};
ghost use Rattle.body.specs.Body.{skim, next_by};
ghost use Rattle.rules.specs.Packing.{lines_from};
ghost use Rattle.judge.specs.Properties.{line_number, has};
ghost use Rattle.judge.specs.Typed.{typed, last_letters, key_of, slot_of};
ghost use Rattle.judge.specs.ByLine.{required_among};
ghost use Rattle.judge.specs.Private.{has_key, Noted};

use base::{Reason, Refusal};

// The last eight letters of a property's name, as a number; of a shorter name, all of them. As the header stands before the
// name, there are eight bytes that end with it, and those that are none of it are shifted out.
fn last_letters(body: &[u8], at: usize, name: &[u8]) -> u64
    requires { name.now ≡ name_at body.now at }
    ensures { result ≡ last_letters name.now }
{
    let n = name.len();
    if n == 0 {
        return 0;
    }
    if 8 < n {
        return le::read::<u64>(name, n - 8);
    }
    let from = at + n;
    let end = from + 8;
    le::read::<u64>(&body[from..end], 0) >> (64 - 8 * n)
}

// Whether a key is among some. It has no early way out, so that it is compiled to wide comparisons.
fn has_key(keys: &[u64], key: u64) -> bool
    ensures { result ≡ has_key keys.now key }
{
    let mut any = false;
    for k in keys {
        any |= *k == key;
    }
    any
}

// A number that equal names share: their letters in numbers of eight, of which the last may share letters with the one
// before, each added to three times the sum of those before. Few other names share it.
fn key_of(name: &[u8], last: u64) -> u64
    requires { last ≡ last_letters name.now }
    ensures { result ≡ key_of name.now }
{
    let mut key: u64 = 0;
    for i in 0..name.len().saturating_sub(1) / 8 {
        let start = 8 * i;
        let eight: u64 = le::read(&name[start..start + 8], 0);
        key = key.wrapping_mul(3).wrapping_add(eight);
    }
    key.wrapping_mul(3).wrapping_add(last)
}

// One of 1,024 slots, the same for equal names.
#[tactic(auto, unfolding(crate::specs::Typed::slot_of))]
fn slot_of(key: u64) -> usize
    ensures result { result ≡ slot_of key }
    ensures bound { result < 1024 }
{
    let low = key % 4294967296 * 0x9E37_79B1;
    let high = key / 4294967296 * 0x85EB_CA77;
    (low.wrapping_add(high) / 134217728 % 1024) as usize
}

// Whether one of some properties has a name. Where none was seen in its slot, or none has its key, none has.
fn is_before(body: &[u8], starts: &[usize], keys: &[u64], key: u64, name: &[u8], seen: bool) -> bool
    requires slot { seen ≡ false → has body.now starts.now name.now ≡ false }
    requires keys { has_key keys.now key ≡ false → has body.now starts.now name.now ≡ false }
    ensures { result ≡ has body.now starts.now name.now }
{
    if !seen {
        return false;
    }
    if !has_key(keys, key) {
        return false;
    }
    crate::has(body, starts, name)
}

// Where the property after one starts, whose header is given; of the last, after which none is looked for, where it starts itself.
fn place_after(body: &[u8], at: usize, h: props::PropertyHeader, more: bool) -> usize
    requires { at ≤ length body.now }
    ensures next { more ≡ true → result ≡ next_by body.now at h }
    ensures within { result ≤ length body.now }
{
    if !more {
        return at;
    }
    body::next_by(body, at, h)
}

// How many of `count` properties have required lines; or the first whose name came before, or which has another type or length than
// its line says. Noted are, of those before it, where each starts, where its line stands among the lines of the kind and its name's
// key; and its slot is marked.
pub(crate) fn typed(
    lines: &[rules::Line],
    body: &[u8],
    count: usize,
    starts: &mut [usize],
    numbers: &mut [usize],
    keys: &mut [u64],
    marks: &mut [u16],
    mark: u16,
) -> Result<usize, Refusal>
    requires { (count ≤ most_properties) × (most_properties ≤ length starts.old) × (most_properties ≤ length numbers.old) × (most_properties ≤ length keys.old) × (1024 ≤ length marks.old) }
    ensures result { refusal_in result ≡ typed (lines_from lines.now) body.now [] (skim body.now count 0) }
    ensures noted { Noted (lines_from lines.now) body.now mark (skim body.now count 0)
        starts.old numbers.old keys.old marks.old
        starts.new numbers.new keys.new marks.new }
    ensures required { IfOk result (λ required. required
        ≡ required_among (lines_from lines.now) (map (line_number (lines_from lines.now) body.now) (skim body.now count 0))) }
    ensures place { (refusal_in result).place ≤ 24 + length body.now }
{
    let mut at: usize = 0;
    let mut required: usize = 0;
    for i in 0..count {
        let rest = &body[at..];
        let h = props::header_at(rest, 0);
        let name = props::name_at(rest, 0);
        let k = rules::line_named(lines, name);
        let key = key_of(name, last_letters(rest, 0, name));
        let slot = slot_of(key);
        let repeats = is_before(
            body,
            &starts[..i],
            &keys[..i],
            key,
            name,
            marks[slot] == mark,
        );
        let line = rules::line_in(lines, k);
        let misfits = rules::misfits(line, h.code, h.length);
        if repeats | misfits {
            return Err(Reason::Mistyped.at(24 + at));
        }
        starts[i] = at;
        numbers[i] = k;
        keys[i] = key;
        marks[slot] = mark;
        required += usize::from(line.required);
        at += place_after(rest, 0, h, i + 1 < count);
    }
    Ok(required)
}
