// One property at a time: its type, its name, its data, and the position just past it.
#![tactic(auto)]

ghost use Rattle.std.specs.Prelude.{◌≡◌, ◌+◌, ◌≤◌, leb, length, drop};
ghost use Rattle.base.specs.Refusals.{reason_number};
ghost use Rattle.props.specs.Types.{element_size, size_told, size_numbers};
ghost use Rattle.props.specs.Step.{to_zero, data_size, step_at, step_told, header_at, code_at, length_at, name_at, start_at, data_at, step_numbers};
ghost use Rattle.props.specs.Private.{fit, extent_told, data_of, name_out};

use base::Reason;

// The type codes, by the letters that document 01 gives them.
pub const BYTE: u16 = 0x62; // b

pub const SHORT: u16 = 0x68; // h

pub const INT: u16 = 0x69; // i

pub const LONG: u16 = 0x6C; // l

pub const FLOAT: u16 = 0x66; // f

pub const DOUBLE: u16 = 0x64; // d

pub const V2: u16 = 0x7632; // v2

pub const V3: u16 = 0x7633; // v3

pub const V4: u16 = 0x7634; // v4

pub const STRING: u16 = 0x73; // s

// The size of one element. A string's size is found in its data.
#[derive(Clone, Copy, Debug, PartialEq, Eq)]
pub enum Size {
    Bytes(u32),
    Text,
}

// The size of one element, by type code; none of another code.
pub fn element_size(code: u16) -> Option<Size>
    ensures result { size_told result ≡ element_size code }
    ensures numbers { size_numbers (size_told result) ≡ size_numbers (element_size code) }
{
    match code {
        BYTE => Some(Size::Bytes(1)),
        SHORT => Some(Size::Bytes(2)),
        INT => Some(Size::Bytes(4)),
        LONG => Some(Size::Bytes(8)),
        FLOAT => Some(Size::Bytes(4)),
        DOUBLE => Some(Size::Bytes(8)),
        V2 => Some(Size::Bytes(8)),
        V3 => Some(Size::Bytes(12)),
        V4 => Some(Size::Bytes(16)),
        STRING => Some(Size::Text),
        _ => None,
    }
}

// Whether any byte is zero. It has no early way out, so that it is compiled to a few wide comparisons.
fn has_zero(block: &[u8; 64]) -> bool
    ensures { result ≡ leb (to_zero block.now) (length block.now) }
{
    block.iter().fold(false, |any, b| any | (*b == 0))
}

// A place up to which no byte is zero, found by blocks.
fn clear_of_zeros(bytes: &[u8]) -> usize
    ensures { (result ≤ length bytes.now) × (result + to_zero (drop result bytes.now) ≡ to_zero bytes.now) }
{
    let (blocks, _) = bytes.as_chunks::<64>();
    64 * blocks.iter().position(has_zero).unwrap_or(blocks.len())
}

// How many bytes a string takes, its zero included; one more than there are where no zero is.
fn to_zero(bytes: &[u8]) -> usize
    ensures { result ≡ to_zero bytes.now }
{
    let clear = clear_of_zeros(bytes);
    let rest = &bytes[clear..];
    clear + rest.iter().position(|b| *b == 0).unwrap_or(rest.len()) + 1
}

// Exactly n bytes of the room, where they fit.
fn fit(n: usize, room: usize) -> Result<usize, Reason>
    ensures { extent_told result ≡ fit n room }
{
    if room < n {
        return Err(Reason::PropertyPastEnd);
    }
    Ok(n)
}

// How many bytes the data at the start of `rest` takes, as `length` elements of this size: one match tells a wrong type, a wrong
// string length and data that does not fit.
fn data_of(size: Option<Size>, length: u32, rest: &[u8]) -> Result<usize, Reason>
    ensures { extent_told result ≡ data_of (size_told size) length rest.now }
{
    match size {
        Some(Size::Bytes(w)) => fit(length as usize * w as usize, rest.len()),
        Some(Size::Text) => {
            if length == 1 {
                fit(to_zero(rest), rest.len())
            } else {
                Err(Reason::PropertyForm)
            }
        }
        None => Err(Reason::PropertyForm),
    }
}

// How many bytes the data at the start of `rest` takes, where its property was passed already.
pub fn data_size(code: u16, length: u32, rest: &[u8]) -> usize
    ensures { result ≡ data_size (element_size code) length rest.now }
{
    match element_size(code) {
        Some(Size::Bytes(w)) => length as usize * w as usize,
        Some(Size::Text) => to_zero(rest),
        None => 0,
    }
}

// A property's header.
#[derive(Clone, Copy)]
pub struct PropertyHeader {
    pub code: u16,
    pub size: u16,
    pub length: u32,
}

// The header at the start of these bytes, all by one number.
fn header_of(bytes: &[u8]) -> PropertyHeader
    ensures { result ≡ header_at bytes.now 0 }
{
    let number: u64 = le::read(bytes, 0);
    let code = (number & 0xFFFF) as u16;
    let size = (number >> 16 & 0xFFFF) as u16;
    let length = (number >> 32) as u32;
    PropertyHeader { code, size, length }
}

// The header of the property at a place. It is read from just 8 bytes where they are there, so that no byte of it is
// tested for.
pub fn header_at(body: &[u8], at: usize) -> PropertyHeader
    ensures { result ≡ header_at body.now at }
{
    let n = body.len();
    if n < at {
        return PropertyHeader {
            code: 0,
            size: 0,
            length: 0,
        };
    }
    if n - at < 8 {
        return header_of(&body[at..]);
    }
    let end = at + 8;
    header_of(&body[at..end])
}

// What a name that does not fit is refused with: a wrong type comes first.
fn name_out(code: u16) -> Reason
    ensures { reason_number result ≡ name_out code }
{
    match element_size(code) {
        Some(_) => Reason::PropertyPastEnd,
        None => Reason::PropertyForm,
    }
}

// A position in a body.
#[derive(Clone, Copy, Debug, PartialEq, Eq)]
pub struct Cursor {
    pub at: usize,
}

// Where the name and the data of a property start. The name ends where the data starts, the data where the next
// property does.
#[derive(Clone, Copy, Debug, PartialEq, Eq)]
pub struct Offsets {
    pub name: usize,
    pub start: usize,
}

// What a step past a property gives: its offsets, and the cursor at the next.
#[derive(Clone, Copy, Debug, PartialEq, Eq)]
pub struct Passed {
    pub offsets: Offsets,
    pub next: Cursor,
}

impl Cursor {
    // Steps past one property: header fits, type, name size, name fits, name bytes, string length, data fits. A wrong type is
    // refused with the number of a wrong name, so it is told last, with the data; but before a name that does not fit.
    pub fn step(self, body: &[u8]) -> Result<Passed, Reason>
        ensures result { step_told result ≡ step_at body.now self.at }
        ensures numbers { step_numbers (step_told result) ≡ step_numbers (step_at body.now self.at) }
    {
        let at = self.at;
        let n = body.len();
        if n < at {
            return Err(Reason::PropertyPastEnd);
        }
        if n - at < 8 {
            return Err(Reason::PropertyPastEnd);
        }
        let name = at + 8;
        let header = header_of(&body[at..name]);
        if !names::size_ok(header.size) {
            return Err(Reason::PropertyForm);
        }
        let size = usize::from(header.size);
        if n - name < size {
            return Err(name_out(header.code));
        }
        let start = name + size;
        if !names::bytes_ok(&body[name..start]) {
            return Err(Reason::PropertyForm);
        }
        let k = data_of(element_size(header.code), header.length, &body[start..])?;
        let end = start + k;
        Ok(Passed {
            offsets: Offsets { name, start },
            next: Cursor { at: end },
        })
    }
}

// Where the data of the property at a place starts, by its name size; at most the body's end.
pub fn data_at(body: &[u8], at: usize) -> usize
    ensures result { result ≡ data_at body.now at }
    ensures within { result ≤ length body.now }
{
    let n = body.len();
    if n < at {
        return n;
    }
    let data = 8 + usize::from(header_at(body, at).size);
    if n - at < data {
        return n;
    }
    at + data
}

// The name of the property at a place, as far as the body has it.
pub fn name_at(body: &[u8], at: usize) -> &[u8]
    ensures { result.now ≡ name_at body.now at }
{
    let data = data_at(body, at);
    if data < 8 {
        return &body[0..0];
    }
    if data - 8 < at {
        return &body[0..0];
    }
    let start = at + 8;
    &body[start..data]
}

// The type code of the property at a place.
pub fn code_at(body: &[u8], at: usize) -> u16
    ensures { result ≡ code_at body.now at }
{
    header_at(body, at).code
}

// The array length of the property at a place.
pub fn length_at(body: &[u8], at: usize) -> u32
    ensures { result ≡ length_at body.now at }
{
    header_at(body, at).length
}

// The data of the property at a place, and all that follows it.
pub fn rest_at(body: &[u8], at: usize) -> &[u8]
    ensures { result.now ≡ drop (start_at body.now at) body.now }
{
    let start = data_at(body, at);
    &body[start..]
}
