// The trimmer, over a lent table and a lent output.
ghost use Rattle.std.specs.Prelude.{◌≡◌, length};
ghost use Rattle.removal.specs.Trimmer.{trimmed_output};
ghost use Rattle.vectors.specs.Answers.{answered};
ghost use Rattle.vectors.specs.Trims.{trim_numbers, trim_line, trim_output};

use crate::answer::Answer;
use crate::frame::Frame;
use crate::{buffers, writes};

// 36: the file in the first block; the table's length in the second, a number of 4 bytes; each number of the table is the
// seed; the row is x.
pub fn run(f: Frame, out: &mut [u8], file: &[u8], second: &[u8]) -> Answer
    ensures result { result ≡ answered (trim_line f file.now second.now (length out.old)) }
    ensures output { out.new ≡ trim_output f file.now second.now out.old }
{
    let n = le::read::<u32>(second, 0) as usize;
    if 8300 < n {
        return Answer::none();
    }
    let mut space = buffers::space(f.seed);
    lent(f.x as usize, out, file, &mut space[..n])
}

fn lent(row: usize, out: &mut [u8], file: &[u8], table: &mut [u32]) -> Answer
    ensures result { result ≡ answered (trim_numbers file.now row table.old (length out.old)) }
    ensures output { out.new ≡ trimmed_output file.now row table.old out.old }
{
    let written = trimmer::trim(file, row, table, out);
    writes::with_written(Answer::none(), written).push(buffers::checksum(table))
}
