// The writer: a plan's rows and a source's bytes to a file, or a refusal of 20 to 26.
#![tactic(auto)]

ghost use Rattle.std.specs.Prelude.{◌≡◌, ◌<◌, length};
ghost use Rattle.base.specs.Limits.{most_rows};
ghost use Rattle.base.specs.Refusals.{refusal_in};
ghost use Rattle.emit.specs.Emission.{written_told};
ghost use Rattle.writer.specs.Writer.{written_of, output_after};

use base::{Reason, Refusal};

// Writes the plan's rows, with their bodies out of the source, as a file, and answers its length. A refusal leaves the output.
pub fn write(plan: &[u32], source: &[u8], flags: u32, out: &mut [u8]) -> Result<u32, Refusal>
    ensures result { written_told result ≡ written_of plan.now source.now flags (length out.old) }
    ensures output { out.new ≡ output_after plan.now source.now flags out.old }
    ensures place { (refusal_in result).place < most_rows }
{
    if !table::is_plan(plan) {
        return Err(Reason::NotAPlan.at(0));
    }
    let rows = table::row_count(plan);
    let judged = plan::check(plan, rows, source);
    judged?;
    emit::emit(plan, rows, source, flags, out)
}
