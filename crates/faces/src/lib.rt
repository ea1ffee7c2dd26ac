// The faces of a mesh: whether each of their values is a vertex, how many faces there are, and how many are degenerate.
#![tactic(auto)]

ghost use Rattle.std.specs.Prelude.{◌≡◌, ◌*◌, ◌≤◌};
ghost use Rattle.faces.specs.Private.{face_at, is_outside};
ghost use Rattle.faces.specs.Faces.{width_of, faces_in, is_degenerate, scan_of, scan_numbers, scanned_told};

mod passes;
mod tally;

// A number of faces. It has a type of its own, so that own bytes are never added to it.
#[derive(Clone, Copy, Debug, PartialEq, Eq)]
pub struct Faces(pub u64);

// The three values of a face.
#[derive(Clone, Copy, Debug, PartialEq, Eq)]
pub struct Face {
    pub a: u32,
    pub b: u32,
    pub c: u32,
}

impl Face {
    // The face at a place.
    fn at(bytes: &[u8], at: usize, width: u32) -> Self
        requires { (width ≤ 4) × (at ≤ 12 * 4294967296) }
        ensures { result ≡ face_at width bytes.now at }
    {
        let step = width as usize;
        let a = le::number_at(bytes, at, width);
        let b = le::number_at(bytes, at + step, width);
        let c = le::number_at(bytes, at + 2 * step, width);
        Face { a, b, c }
    }

    fn is_degenerate(self) -> bool
        ensures { result ≡ is_degenerate self }
    {
        (self.a == self.b) | (self.b == self.c) | (self.a == self.c)
    }

    fn is_outside(self, vertices: u32) -> bool
        ensures { result ≡ is_outside vertices self }
    {
        (vertices <= self.a) | (vertices <= self.b) | (vertices <= self.c)
    }
}

// How many faces there are, and how many of them are degenerate.
#[derive(Clone, Copy, Debug, PartialEq, Eq)]
pub struct Counted {
    pub faces: Faces,
    pub degenerate: u64,
}

// The first value that is not below the limit, by how many come before it.
#[derive(Clone, Copy, Debug, PartialEq, Eq)]
pub struct NotBelow(pub u64);

// The width of a value, by its type.
pub fn width_of(code: u16) -> u32
    ensures result { result ≡ width_of code }
    ensures bound { result ≤ 4 }
{
    match code {
        props::BYTE => 1,
        props::SHORT => 2,
        _ => 4,
    }
}

// Passes over `count` faces once.
pub fn scan(bytes: &[u8], code: u16, count: u32, vertices: u32) -> Result<Counted, NotBelow>
    ensures result { scanned_told result ≡ scan_of vertices (faces_in (width_of code) count bytes.now) }
    ensures numbers { scan_numbers (scanned_told result) ≡ scan_numbers (scan_of vertices (faces_in (width_of code) count bytes.now)) }
{
    let step = 3 * width_of(code) as usize;
    let size = count as usize * step;
    if bytes.len() < size {
        return passes::scan_each(bytes, code, count, vertices, 0);
    }
    passes::scan_blocks(bytes, code, count, vertices)
}
