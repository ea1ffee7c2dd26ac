// Properties, names and kinds, each by its number.
ghost use Rattle.std.specs.Prelude.{◌≡◌, [], ◌∷◌};
ghost use Rattle.props.specs.Types.{element_size};
ghost use Rattle.props.specs.Step.{step_at};
ghost use Rattle.names.specs.Names.{number_after};
ghost use Rattle.body.specs.Body.{properties, passed_told, stopped_number};
ghost use Rattle.vectors.specs.Answers.{answered};
ghost use Rattle.vectors.specs.Parts.{size_line, name_line, numeral_line, parent_of, step_line, index_numbers, part_line};

use crate::answer::Answer;
use crate::buffers;
use crate::frame::Frame;

// 10 a type's element size, 11 to 13 names, 14 and 15 kinds, 16 to 18 properties. Names and bodies are blocks; codes,
// kinds and places are x and y.
pub fn run(f: Frame, first: &[u8], second: &[u8]) -> Answer
    ensures { result ≡ answered (part_line f first.now second.now) }
{
    let x = f.x;
    let low = (x % 4294967296) as u32;
    let count = (f.y % 4294967296) as u32;
    let function = f.function;
    match function {
        10 => element((x % 65536) as u16),
        11 => name(first),
        12 => Answer::truth(names::same(first, second)),
        13 => numbered(first, second),
        14 => Answer::truth(kinds::known(low)),
        15 => Answer::truth(kinds::may_stand(above(x), count)),
        16 => step(first, x as usize),
        17 => index(first, count),
        _ => Answer::truth(body::exact(first, count)),
    }
}

// A parent is one more than its kind, and none is 0.
fn above(parent: u64) -> Option<u32>
    ensures { result ≡ parent_of parent }
{
    let kind = parent.checked_sub(1)?;
    Some((kind % 4294967296) as u32)
}

fn element(code: u16) -> Answer
    ensures { result ≡ answered (size_line (element_size code)) }
{
    match props::element_size(code) {
        Some(props::Size::Bytes(n)) => Answer::of(&[1, n as u64]),
        Some(props::Size::Text) => Answer::of(&[2, 0]),
        None => Answer::of(&[0, 0]),
    }
}

// More than 65,535 bytes are not asked about.
fn name(bytes: &[u8]) -> Answer
    ensures { result ≡ answered (name_line bytes.now) }
{
    if 65535 < bytes.len() {
        return Answer::none();
    }
    let size = bytes.len() as u16;
    Answer::truth(names::size_ok(size) & names::bytes_ok(bytes))
}

fn numbered(name: &[u8], prefix: &[u8]) -> Answer
    ensures { result ≡ answered (numeral_line (number_after name.now prefix.now)) }
{
    match names::number_after(name, prefix) {
        Some(n) => Answer::of(&[1, n as u64]),
        None => Answer::of(&[0, 0]),
    }
}

fn step(body: &[u8], at: usize) -> Answer
    ensures { result ≡ answered (step_line (step_at body.now at)) }
{
    let cursor = props::Cursor { at };
    match cursor.step(body) {
        Ok(passed) => Answer::of(&[
            0,
            passed.offsets.name as u64,
            passed.offsets.start as u64,
            passed.next.at as u64,
        ]),
        Err(why) => Answer::of(&[why.number() as u64, 0, 0, 0]),
    }
}

// The number of what a walk over properties stopped at; 0 where it did not stop.
fn stopped(why: Option<base::Reason>) -> u64
    ensures { result ≡ stopped_number why }
{
    match why {
        Some(why) => why.number() as u64,
        None => 0,
    }
}

// The number and the place of how a walk over properties ended.
fn ended(passed: Result<usize, base::Refusal>) -> (u32, usize)
    ensures number { result.0 ≡ (passed_told passed).number }
    ensures place { result.1 ≡ (passed_told passed).at }
{
    match passed {
        Ok(at) => (0, at),
        Err(refusal) => (refusal.reason.number(), refusal.place),
    }
}

fn index(body: &[u8], count: u32) -> Answer
    ensures { result ≡ answered (index_numbers (properties body.now count)) }
{
    let index = body::index_of(body, count);
    let (number, at) = ended(body::pass(body, count));
    let starts = index.starts;
    Answer::of(&[
        stopped(index.stopped),
        index.count as u64,
        number as u64,
        at as u64,
        buffers::checksum(&starts[..]),
    ])
}
