// What puts bytes into a lent output: the listing, the writer and the trimmer.
ghost use Rattle.std.specs.Prelude.{◌≡◌, length};
ghost use Rattle.vectors.specs.Answers.{answered};
ghost use Rattle.vectors.specs.Buffers.{filling};
ghost use Rattle.vectors.specs.Outputs.{put_numbers, put_output, into_output, output_line};

use crate::answer::Answer;
use crate::frame::Frame;
use crate::{buffers, listings, trims, writes};

// 32 to 36. The output has y bytes, filled by the seed.
pub fn run(f: Frame, first: &[u8], second: &[u8]) -> Answer
    ensures { result ≡ answered (output_line f first.now second.now) }
{
    let n = f.y as usize;
    if 98304 < n {
        return Answer::none();
    }
    let mut space = space();
    lent(f, &mut space[..n], first, second)
}

fn space() -> [u8; 98304] {
    [0; 98304]
}

fn lent(f: Frame, out: &mut [u8], first: &[u8], second: &[u8]) -> Answer
    ensures { let out = filling f.seed (length out.old) in result ≡ answered (into_output f first.now second.now out) }
{
    buffers::fill(out, f.seed);
    let answer = put(f, out, first, second);
    answer.push(buffers::checksum(out))
}

fn put(f: Frame, out: &mut [u8], first: &[u8], second: &[u8]) -> Answer
    ensures result { result ≡ answered (put_numbers f first.now second.now out.old) }
    ensures output { out.new ≡ put_output f first.now second.now out.old }
{
    if f.function < 34 {
        return listings::run(f, out, first, second);
    }
    if f.function < 36 {
        return writes::run(f, out, first, second);
    }
    trims::run(f, out, first, second)
}
