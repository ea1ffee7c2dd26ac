// Passes over the faces of a mesh: one by one, or by blocks.
ghost use Rattle.std.specs.Prelude.{◌≡◌, ◌+◌, ◌*◌, ◌≤◌, true, false, length};
ghost use Rattle.faces.specs.Private.{any_outside, scan_from};
ghost use Rattle.faces.specs.Faces.{width_of, faces_in, scan_of, scanned_told};

use crate::tally::tally_of;
use crate::{Counted, Face, Faces, NotBelow, width_of};

// The most faces that are tallied at a time.
const BLOCK: u32 = 1024;

// How many faces of a block with a value past the limit are passed over again at a time.
const SMALL: u32 = 64;

// What `count` faces count, of which no value is past the limit.
fn counted(count: u32, degenerate: u64) -> Counted
    ensures { result ≡ record { faces = record { 0 = count }; degenerate = degenerate } }
{
    Counted {
        faces: Faces(u64::from(count)),
        degenerate,
    }
}

// Passes over `count` faces one by one, wherever their bytes end, the values counted from `start` on.
pub(crate) fn scan_each(
    bytes: &[u8],
    code: u16,
    count: u32,
    vertices: u32,
    start: u64,
) -> Result<Counted, NotBelow>
    requires { start ≤ 12 * 4294967296 }
    ensures { scanned_told result ≡ scan_from vertices start (faces_in (width_of code) count bytes.now) }
{
    let width = width_of(code);
    let step = 3 * width as usize;
    let mut degenerate: u64 = 0;
    for i in 0..count {
        let f = Face::at(bytes, i as usize * step, width);
        let first = start + 3 * i as u64;
        if vertices <= f.a {
            return Err(NotBelow(first));
        }
        if vertices <= f.b {
            return Err(NotBelow(first + 1));
        }
        if vertices <= f.c {
            return Err(NotBelow(first + 2));
        }
        degenerate += u64::from(f.is_degenerate());
    }
    Ok(counted(count, degenerate))
}

// How many faces of a block come before the small block that has its first value past the limit; or before what small blocks do not fill.
fn clean_faces(block: &[u8], code: u16, n: u32, vertices: u32) -> u32
    requires { (n ≤ 1024) × (n * (3 * width_of code) ≤ length block.now) }
    ensures within { result ≤ n }
    ensures clean { any_outside vertices (faces_in (width_of code) result block.now) ≡ false }
{
    let step = 3 * width_of(code) as usize;
    for k in 0..n / SMALL {
        let done = SMALL * k;
        let at = done as usize * step;
        let end = at + SMALL as usize * step;
        if tally_of(&block[at..end], code, SMALL, vertices).outside {
            return done;
        }
    }
    n / SMALL * SMALL
}

// Passes over a block with a value past the limit again: by small blocks up to the one that has it, and then one by one.
fn scan_bad(block: &[u8], code: u16, n: u32, vertices: u32, start: u64) -> Result<Counted, NotBelow>
    requires block { (n ≤ 1024) × (n * (3 * width_of code) ≤ length block.now) × (start ≤ 11 * 4294967296) }
    requires bad { any_outside vertices (faces_in (width_of code) n block.now) ≡ true }
    ensures { scanned_told result ≡ scan_from vertices start (faces_in (width_of code) n block.now) }
{
    let clean = clean_faces(block, code, n, vertices);
    let at = clean as usize * (3 * width_of(code) as usize);
    scan_each(
        &block[at..],
        code,
        n - clean,
        vertices,
        start + 3 * clean as u64,
    )
}

// Passes over `count` faces, all there, by blocks; a block with a value past the limit is passed over again.
pub(crate) fn scan_blocks(
    bytes: &[u8],
    code: u16,
    count: u32,
    vertices: u32,
) -> Result<Counted, NotBelow>
    requires { count * (3 * width_of code) ≤ length bytes.now }
    ensures { scanned_told result ≡ scan_of vertices (faces_in (width_of code) count bytes.now) }
{
    let step = 3 * width_of(code) as usize;
    let mut degenerate: u64 = 0;
    for done in (0..count).step_by(BLOCK as usize) {
        let n = BLOCK.min(count - done);
        let at = done as usize * step;
        let end = at + n as usize * step;
        let block = &bytes[at..end];
        let t = tally_of(block, code, n, vertices);
        if t.outside {
            return scan_bad(block, code, n, vertices, 3 * done as u64);
        }
        degenerate += u64::from(t.degenerate);
    }
    Ok(counted(count, degenerate))
}
