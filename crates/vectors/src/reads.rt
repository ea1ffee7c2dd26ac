// The reading of a file into a table.
ghost use Rattle.std.specs.Prelude.{◌≡◌};
ghost use Rattle.reader.specs.Reading.{Accepted, reading_of, reading_told, table_after};
ghost use Rattle.vectors.specs.Answers.{answered};
ghost use Rattle.vectors.specs.Files.{reading_numbers};

use crate::answer::Answer;
use base::Refusal;
use reader::Account;

pub fn run(table: &mut [u32], file: &[u8]) -> Answer
    ensures result { result ≡ answered (reading_numbers (reading_of file.now table.old)) }
    ensures table { table.new ≡ table_after file.now table.old }
{
    shown(reader::read(file, table))
}

// All nine numbers of an answer.
fn shown(reading: Result<Account, Refusal>) -> Answer
    ensures { result ≡ answered (reading_numbers (reading_told reading)) }
{
    match reading {
        Ok(account) => accepted(account),
        Err(refusal) => {
            let number = refusal.reason.number();
            Answer::of(&[number as u64, refusal.place as u64, 0, 0])
                .extend(&[0, 0, 0, 0])
                .push(0)
        }
    }
}

fn accepted(a: Account) -> Answer
    ensures { result ≡ answered (reading_numbers (Accepted a)) }
{
    let known = a.known;
    let unknown = a.unknown;
    let faces = a.faces;
    Answer::of(&[0, 0, a.nodes as u64, a.flags as u64])
        .extend(&[known.0, unknown.0, faces.0, a.degenerate])
        .push(a.links as u64)
}
