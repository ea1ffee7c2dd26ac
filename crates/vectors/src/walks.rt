// The walk of a file into a table.
ghost use Rattle.std.specs.Prelude.{◌≡◌};
ghost use Rattle.walk.specs.Walk.{answer};
ghost use Rattle.vectors.specs.Answers.{answered};
ghost use Rattle.vectors.specs.Files.{walked_numbers, walked_table, walk_numbers, walk_table};

use crate::answer::Answer;

// A table without room is left; another is cleared before the walk, and again where the file is refused.
pub fn run(table: &mut [u32], file: &[u8]) -> Answer
    ensures result { result ≡ answered (walk_numbers file.now table.old) }
    ensures table { table.new ≡ walk_table file.now table.old }
{
    if !table::has_room(table) {
        return Answer::of(&[1, 0, 0, 0]);
    }
    table::clear(table);
    walked(table, file)
}

fn walked(table: &mut [u32], file: &[u8]) -> Answer
    ensures result { result ≡ answered (walked_numbers (answer file.now)) }
    ensures table { table.new ≡ walked_table file.now table.old }
{
    match walk::walk(file, table) {
        Ok(w) => Answer::of(&[0, 0, w.nodes as u64, w.flags as u64]),
        Err(refusal) => {
            table::clear(table);
            Answer::of(&[refusal.reason.number() as u64, refusal.place as u64, 0, 0])
        }
    }
}
