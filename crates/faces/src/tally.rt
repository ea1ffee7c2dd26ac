// Tallies of blocks of faces: whether a value of theirs is past the limit, and how many of them are degenerate. The loops have
// no branch and read parts of a constant length by a constant width, so that they are compiled to vector instructions.
ghost use Rattle.std.specs.Prelude.{ℕ, ◌≡◌, ◌+◌, ◌*◌, ◌≤◌, ◌<◌, cond, ◌||◌, length, leb, ltb};
ghost use Rattle.std.proofs.Common.{rules};
ghost use Rattle.le.specs.Le.{number_at};
ghost use Rattle.faces.specs.Private.{face_at, with_face, tally_of};
ghost use Rattle.faces.specs.Faces.{width_of, faces_in};

use crate::Face;

// Whether a value of some faces is past the limit, and how many of them are degenerate.
#[derive(Clone, Copy)]
pub(crate) struct Tally {
    pub(crate) outside: bool,
    pub(crate) degenerate: u32,
}

impl Tally {
    const NONE: Tally = Tally {
        outside: false,
        degenerate: 0,
    };

    // One face more, without a branch.
    fn with(self, f: Face, vertices: u32) -> Self
        requires { self.degenerate ≤ 1024 }
        ensures { result ≡ with_face vertices self f }
    {
        Tally {
            outside: self.outside | f.is_outside(vertices),
            degenerate: self.degenerate + u32::from(f.is_degenerate()),
        }
    }

    // The tally of faces and of those after them.
    fn and(self, s: Tally) -> Self
        requires { (self.degenerate ≤ 1024) × (s.degenerate ≤ 1024) }
        ensures { result ≡ record { outside = self.outside || s.outside; degenerate = self.degenerate + s.degenerate } }
    {
        Tally {
            outside: self.outside | s.outside,
            degenerate: self.degenerate + s.degenerate,
        }
    }
}

// A value as it stands in the bytes. Loops over values of one type work in lanes of that type.
trait Value: Copy {
    ghost WIDTH: { ℕ };

    ghost number: { Self → ℕ };

    const WIDTH: usize;

    fn zero() -> Self
        ensures { number result ≡ 0 };

    // The value at a place, which is there.
    fn read(bytes: &[u8], at: usize) -> Self
        requires { at + WIDTH ≤ length bytes.now }
        ensures { number result ≡ number_at WIDTH bytes.now at };

    fn greater(self, other: Self) -> Self
        ensures { number result ≡ cond (ltb (number self) (number other)) (number other) (number self) };

    // One more, where it counts.
    fn plus(self, counts: bool) -> Self
        requires { number self < 255 }
        ensures { number result ≡ number self + cond counts 1 0 };

    fn wide(self) -> u32
        ensures { result ≡ number self };

    ghost narrow: { WIDTH ≤ 4 };
}

impl Value for u8 {
    ghost WIDTH = { 1 };

    ghost number = { λ x. x };

    const WIDTH: usize = 1;

    fn zero() -> u8 {
        0
    }

    fn read(bytes: &[u8], at: usize) -> u8 {
        bytes[at]
    }

    fn greater(self, other: u8) -> u8 {
        self.max(other)
    }

    fn plus(self, counts: bool) -> u8 {
        self + u8::from(counts)
    }

    fn wide(self) -> u32 {
        u32::from(self)
    }

    ghost narrow = { Prim.search rules };
}

impl Value for u16 {
    ghost WIDTH = { 2 };

    ghost number = { λ x. x };

    const WIDTH: usize = 2;

    fn zero() -> u16 {
        0
    }

    // With no test for the end, so that the two bytes are compiled to one load.
    fn read(bytes: &[u8], at: usize) -> u16 {
        u16::from(bytes[at]) + 256 * u16::from(bytes[at + 1])
    }

    fn greater(self, other: u16) -> u16 {
        self.max(other)
    }

    fn plus(self, counts: bool) -> u16 {
        self + u16::from(counts)
    }

    fn wide(self) -> u32 {
        u32::from(self)
    }

    ghost narrow = { Prim.search rules };
}

impl Value for u32 {
    ghost WIDTH = { 4 };

    ghost number = { λ x. x };

    const WIDTH: usize = 4;

    fn zero() -> u32 {
        0
    }

    fn read(bytes: &[u8], at: usize) -> u32 {
        le::read::<u32>(bytes, at)
    }

    fn greater(self, other: u32) -> u32 {
        self.max(other)
    }

    fn plus(self, counts: bool) -> u32 {
        self + u32::from(counts)
    }

    fn wide(self) -> u32 {
        self
    }

    ghost narrow = { Prim.search rules };
}

// The face that begins at a place.
fn face<V: Value>(bytes: &[u8], at: usize) -> Face
    requires { at + 3 * V.WIDTH ≤ length bytes.now }
    ensures { result ≡ face_at V.WIDTH bytes.now at }
{
    let a = V::read(bytes, at).wide();
    let b = V::read(bytes, at + V::WIDTH).wide();
    let c = V::read(bytes, at + 2 * V::WIDTH).wide();
    Face { a, b, c }
}

// The tally of `n` faces, one by one.
fn each<V: Value>(bytes: &[u8], n: usize, vertices: u32) -> Tally
    requires { (n ≤ 1024) × (n * (3 * V.WIDTH) ≤ length bytes.now) }
    ensures { result ≡ tally_of vertices (faces_in V.WIDTH n bytes.now) }
{
    let step = 3 * V::WIDTH;
    let mut t = Tally::NONE;
    for i in 0..n {
        let at = i * step;
        let part = &bytes[at..at + step];
        t = t.with(face::<V>(part, 0), vertices);
    }
    t
}

// The tally of 16 faces, with the two values after them. Each of the 48 values is read as if it were the first of a face, and
// those that are count: values one after the other are loaded as a whole vector, and every third one is not.
fn group<V: Value>(bytes: &[u8], vertices: u32) -> Tally
    requires { 50 * V.WIDTH ≤ length bytes.now }
    ensures { result ≡ tally_of vertices (faces_in V.WIDTH 16 bytes.now) }
{
    let mut greatest = V::zero();
    let mut degenerate = V::zero();
    for i in 0..48 {
        let at = i * V::WIDTH;
        let f = face::<V>(bytes, at);
        degenerate = degenerate.plus(f.is_degenerate() & (i % 3 == 0));
        greatest = greatest.greater(V::read(bytes, at));
    }
    Tally {
        outside: vertices <= greatest.wide(),
        degenerate: degenerate.wide(),
    }
}

// The tally of `n` faces, 16 at a time, and the last ones, after which there are not two values more, each by itself.
fn grouped<V: Value>(bytes: &[u8], n: usize, vertices: u32) -> Tally
    requires { (n ≤ 1024) × (n * (3 * V.WIDTH) ≤ length bytes.now) }
    ensures { result ≡ tally_of vertices (faces_in V.WIDTH n bytes.now) }
{
    let step = 3 * V::WIDTH;
    let groups = n.saturating_sub(1) / 16;
    let mut t = Tally::NONE;
    for i in 0..groups {
        let at = 16 * i * step;
        let part = &bytes[at..at + 50 * V::WIDTH];
        t = t.and(group::<V>(part, vertices));
    }
    let done = 16 * groups;
    let last = &bytes[done * step..n * step];
    t.and(each::<V>(last, n - done, vertices))
}

// The tally of `n` faces, all there.
pub(crate) fn tally_of(bytes: &[u8], code: u16, n: u32, vertices: u32) -> Tally
    requires { (n ≤ 1024) × (n * (3 * width_of code) ≤ length bytes.now) }
    ensures { result ≡ tally_of vertices (faces_in (width_of code) n bytes.now) }
{
    let faces = n as usize;
    match code {
        props::BYTE => grouped::<u8>(bytes, faces, vertices),
        props::SHORT => grouped::<u16>(bytes, faces, vertices),
        _ => each::<u32>(bytes, faces, vertices),
    }
}
