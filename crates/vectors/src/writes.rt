// The writer, and its two parts, over a lent plan and a lent output.
ghost use Rattle.std.specs.Prelude.{◌≡◌, length};
ghost use Rattle.emit.specs.Emission.{written_told};
ghost use Rattle.vectors.specs.Answers.{answered, extended};
ghost use Rattle.vectors.specs.Buffers.{numbers_in};
ghost use Rattle.vectors.specs.Writes.{written_numbers, parts_numbers, parts_output, plan_numbers, plan_output, write_numbers, write_output};

use crate::answer::Answer;
use crate::buffers;
use crate::frame::Frame;

// 34, the writer: the source in the first block, the plan's numbers in the second; the flags are x. 35, judging and then
// emitting: a table in the second block, of which the first x rows are the plan; the flags are the seed.
pub fn run(f: Frame, out: &mut [u8], source: &[u8], numbers: &[u8]) -> Answer
    ensures result { result ≡ answered (write_numbers f source.now numbers.now (length out.old)) }
    ensures output { out.new ≡ write_output f source.now numbers.now out.old }
{
    let n = numbers.len() / 4;
    if 8300 < n {
        return Answer::none();
    }
    let mut space = buffers::space(0);
    lent(f, out, source, &mut space[..n], numbers)
}

fn lent(f: Frame, out: &mut [u8], source: &[u8], plan: &mut [u32], numbers: &[u8]) -> Answer
    ensures result { let plan = numbers_in numbers.now (length plan.old) in result ≡ answered (plan_numbers f source.now plan (length out.old)) }
    ensures output { let plan = numbers_in numbers.now (length plan.old) in out.new ≡ plan_output f source.now plan out.old }
{
    buffers::numbers(plan, numbers);
    planned(f, out, source, plan)
}

fn planned(f: Frame, out: &mut [u8], source: &[u8], plan: &[u32]) -> Answer
    ensures result { result ≡ answered (plan_numbers f source.now plan.now (length out.old)) }
    ensures output { out.new ≡ plan_output f source.now plan.now out.old }
{
    if f.function == 34 {
        let flags = (f.x % 4294967296) as u32;
        return with_written(Answer::none(), writer::write(plan, source, flags, out));
    }
    parts(f.x as usize, f.seed, out, source, plan)
}

// What is refused is not emitted; zeros stand for that answer.
fn parts(rows: usize, flags: u32, out: &mut [u8], source: &[u8], plan: &[u32]) -> Answer
    ensures result { result ≡ answered (parts_numbers plan.now rows flags source.now (length out.old)) }
    ensures output { out.new ≡ parts_output plan.now rows flags source.now out.old }
{
    match plan::check(plan, rows, source) {
        Ok(()) => with_written(
            Answer::of(&[0, 0]),
            emit::emit(plan, rows, source, flags, out),
        ),
        Err(refusal) => Answer::of(&[refusal.reason.number() as u64, refusal.place as u64])
            .extend(&[0, 0])
            .push(0),
    }
}

pub fn with_written(answer: Answer, w: Result<u32, base::Refusal>) -> Answer
    ensures { result ≡ extended answer (written_numbers (written_told w)) }
{
    match w {
        Ok(length) => answer.extend(&[0, 0]).push(length as u64),
        Err(refusal) => answer
            .extend(&[refusal.reason.number() as u64, refusal.place as u64])
            .push(0),
    }
}
