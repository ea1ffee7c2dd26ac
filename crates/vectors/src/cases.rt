// A case, whose function's number says which part of the program knows it.
ghost use Rattle.std.specs.Prelude.{◌≡◌};
ghost use Rattle.vectors.specs.Answers.{answered};
ghost use Rattle.vectors.specs.Cases.{answer_line};

use crate::answer::Answer;
use crate::frame::Frame;
use crate::{files, leaves, outputs, parts, rows};

pub fn run(f: Frame, first: &[u8], second: &[u8]) -> Answer
    ensures { result ≡ answered (answer_line f first.now second.now) }
{
    if f.function < 10 {
        return leaves::run(f, first);
    }
    if f.function < 19 {
        return parts::run(f, first, second);
    }
    if f.function < 30 {
        return rows::run(f, first, second);
    }
    if f.function < 32 {
        return files::run(f, first);
    }
    if f.function < 37 {
        return outputs::run(f, first, second);
    }
    Answer::none()
}
