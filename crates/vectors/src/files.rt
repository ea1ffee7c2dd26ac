// A file, and the table that is lent to what is done with it.
ghost use Rattle.std.specs.Prelude.{◌≡◌};
ghost use Rattle.vectors.specs.Answers.{answered};
ghost use Rattle.vectors.specs.Files.{file_numbers, file_table, into_table, file_line};

use crate::answer::Answer;
use crate::frame::Frame;
use crate::{buffers, reads, walks};

// 30, the walk, and 31, the reading: the file in the first block; a table of y numbers, each the seed.
pub fn run(f: Frame, file: &[u8]) -> Answer
    ensures { result ≡ answered (file_line f file.now) }
{
    let n = f.y as usize;
    if 8300 < n {
        return Answer::none();
    }
    let mut space = buffers::space(f.seed);
    lent(f.function, &mut space[..n], file)
}

fn lent(function: u32, table: &mut [u32], file: &[u8]) -> Answer
    ensures { result ≡ answered (into_table function file.now table.old) }
{
    let answer = passed(function, table, file);
    answer.push(buffers::checksum(table))
}

fn passed(function: u32, table: &mut [u32], file: &[u8]) -> Answer
    ensures result { result ≡ answered (file_numbers function file.now table.old) }
    ensures table { table.new ≡ file_table function file.now table.old }
{
    if function == 30 {
        return walks::run(table, file);
    }
    reads::run(table, file)
}
