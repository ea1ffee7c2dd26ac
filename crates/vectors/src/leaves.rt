// Numbers in bytes, each function by its number.
ghost use Rattle.std.specs.Prelude.{◌≡◌, [], ◌∷◌, length};
ghost use Rattle.vectors.specs.Answers.{answered};
ghost use Rattle.vectors.specs.Buffers.{filling, checksum};
ghost use Rattle.vectors.specs.Leaves.{stored, written_line, leaf_line};

use crate::answer::Answer;
use crate::buffers;
use crate::frame::Frame;

// 1 to 6: numbers of 2, 4 and 8 bytes, read from the first block at x; y's lowest bytes written at x into a buffer as
// long as the first block, filled from the seed. 7: the number of y bytes at x.
pub fn run(f: Frame, bytes: &[u8]) -> Answer
    ensures { result ≡ answered (leaf_line f bytes.now) }
{
    let at = f.x as usize;
    let function = f.function;
    match function {
        1 => Answer::of(&[le::read::<u16>(bytes, at) as u64]),
        2 => Answer::of(&[le::read::<u32>(bytes, at) as u64]),
        3 => Answer::of(&[le::read::<u64>(bytes, at)]),
        7 => Answer::of(&[le::number_at(bytes, at, (f.y % 4294967296) as u32) as u64]),
        _ => written(f, bytes.len()),
    }
}

// A buffer over 4,096 bytes is not lent.
fn written(f: Frame, len: usize) -> Answer
    ensures { result ≡ answered (written_line f len) }
{
    let mut space = io::buffer();
    if 4096 < len {
        return Answer::none();
    }
    lent(f, &mut space[..len])
}

fn lent(f: Frame, out: &mut [u8]) -> Answer
    ensures { let out = filling f.seed (length out.old) in result ≡ answered (checksum (stored f.function f.x f.y out) ∷ []) }
{
    buffers::fill(out, f.seed);
    store(f.function, f.x as usize, f.y, out);
    Answer::of(&[buffers::checksum(out)])
}

fn store(function: u32, at: usize, y: u64, out: &mut [u8])
    ensures { out.new ≡ stored function at y out.old }
{
    if function == 4 {
        le::write(out, at, (y % 65536) as u16);
        return;
    }
    if function == 5 {
        le::write(out, at, (y % 4294967296) as u32);
        return;
    }
    le::write(out, at, y);
}
