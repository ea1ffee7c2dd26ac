// The properties of a body: a given number of them from its start on, where each starts, and the first of a name.
#![tactic(auto)]

ghost use Rattle.std.specs.Prelude.{◌≡◌, ◌≤◌, length};
ghost use Rattle.base.specs.Limits.{most_properties};
ghost use Rattle.body.specs.Body.{properties, passed_told, sought, sought_told, sought_numbers, exactly, end_of, index_of, index_told, next_by, first_named};

use base::{Reason, Refusal};

// How a search among properties ended: at the first that has the name, with where its data starts and ends and how many come
// after it; or past the last, where none has it.
#[derive(Clone, Copy, Debug, PartialEq, Eq)]
pub enum Sought {
    Found { start: usize, end: usize, left: u32 },
    Nowhere(usize),
}

// Steps past properties, at most `count`, up to the first that has the name; or refused at one of them. The walk, the lookup and the
// judgement of a plan all go by this loop, so that the step has one caller there and is compiled into it.
pub fn seek(body: &[u8], count: u32, name: &[u8]) -> Result<Sought, Refusal>
    ensures result { sought_told result ≡ sought body.now name.now count 0 }
    ensures numbers { sought_numbers (sought_told result) ≡ sought_numbers (sought body.now name.now count 0) }
{
    let mut at: usize = 0;
    for left in (0..count).rev() {
        let cursor = props::Cursor { at };
        let passed = cursor.step(body).map_err(|why| why.at(at))?;
        let start = passed.offsets.start;
        let end = passed.next.at;
        if names::same(&body[passed.offsets.name..start], name) {
            return Ok(Sought::Found { start, end, left });
        }
        at = end;
    }
    Ok(Sought::Nowhere(at))
}

// Walks over `count` properties, at most 64, and answers where they end: none has the empty name.
pub fn pass(body: &[u8], count: u32) -> Result<usize, Refusal>
    ensures { passed_told result ≡ end_of (properties body.now count) }
{
    if count == 0 {
        return Ok(0);
    }
    if base::MOST_PROPERTIES < count {
        return Err(Reason::TooManyProperties.at(0));
    }
    match seek(body, count, &body[0..0])? {
        Sought::Found { end, .. } => Ok(end),
        Sought::Nowhere(at) => Ok(at),
    }
}

// Whether the body is exactly `count` properties, at most 64.
pub fn exact(body: &[u8], count: u32) -> bool
    ensures { result ≡ exactly body.now count }
{
    match pass(body, count) {
        Ok(at) => at == body.len(),
        Err(_) => false,
    }
}

// Where each property that was passed starts, and then where the walk ended, zeros after that; and why it stopped, where it
// did. An array with a count, as the library has no heap.
#[derive(Clone, Copy)]
pub struct Index {
    pub stopped: Option<Reason>,
    pub count: usize,
    pub starts: [usize; 65],
}

// Walks over `count` properties, at most 64, and notes where they start.
pub fn index_of(body: &[u8], count: u32) -> Index
    ensures result { index_told result ≡ index_of (properties body.now count) }
    ensures bound { result.count ≤ most_properties }
{
    let mut starts = [0usize; 65];
    if base::MOST_PROPERTIES < count {
        return Index {
            stopped: Some(Reason::TooManyProperties),
            count: 0,
            starts,
        };
    }
    let n = count as usize;
    let mut at: usize = 0;
    for i in 0..n {
        starts[i] = at;
        let cursor = props::Cursor { at };
        match cursor.step(body) {
            Ok(passed) => at = passed.next.at,
            Err(why) => {
                return Index {
                    stopped: Some(why),
                    count: i,
                    starts,
                };
            }
        }
    }
    starts[n] = at;
    Index {
        stopped: None,
        count: n,
        starts,
    }
}

// Where a property at a place ends by a header, at most at the end of the body: for one that was passed already.
pub fn next_by(body: &[u8], at: usize, h: props::PropertyHeader) -> usize
    ensures result { result ≡ next_by body.now at h }
    ensures within { result ≤ length body.now }
{
    let n = body.len();
    let Some(rest) = body.get(at..) else {
        return n;
    };
    let Some(rest) = rest.get(8 + usize::from(h.size)..) else {
        return n;
    };
    let taken = props::data_size(h.code, h.length, rest);
    if rest.len() < taken {
        return n;
    }
    n - rest.len() + taken
}

// The first of the properties that start at these places which has the name; their number where none has.
pub fn first_named(body: &[u8], starts: &[usize], name: &[u8]) -> usize
    ensures result { result ≡ first_named body.now name.now starts.now }
    ensures within { result ≤ length starts.now }
{
    starts
        .iter()
        .position(|at| names::same(props::name_at(body, *at), name))
        .unwrap_or(starts.len())
}
