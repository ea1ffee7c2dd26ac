// The listing of an input, and single lines of it, in a lent output.
ghost use Rattle.std.specs.Prelude.{◌≡◌};
ghost use Rattle.vectors.specs.Answers.{answered};
ghost use Rattle.vectors.specs.Listings.{line_in, list_numbers, list_output};

use crate::answer::Answer;
use crate::frame::Frame;
use crate::rows;

// 32, the listing of the first block; 33, the line that x says, its numbers in the first block, 8 bytes each, and a row's in
// the second.
pub fn run(f: Frame, out: &mut [u8], first: &[u8], second: &[u8]) -> Answer
    ensures result { result ≡ answered (list_numbers f first.now second.now out.old) }
    ensures output { out.new ≡ list_output f first.now second.now out.old }
{
    if f.function == 32 {
        return Answer::of(&[listing::list(first, out) as u64]);
    }
    Answer::of(&[listing::put(out, line(f.x, first, second)) as u64])
}

fn line(which: u64, block: &[u8], fields: &[u8]) -> listing::TextLine
    ensures { result ≡ line_in which block.now fields.now }
{
    match which {
        0 => listing::TextLine::Summary {
            flags: le::read(block, 0),
            nodes: le::read(block, 8),
            bytes: le::read(block, 16),
        },
        1 => listing::TextLine::Node {
            index: le::read(block, 0),
            row: rows::parsed(fields),
        },
        2 => listing::TextLine::FileHeader,
        3 => listing::TextLine::Faces {
            faces: faces::Faces(le::read::<u64>(block, 0)),
            degenerate: le::read(block, 8),
        },
        4 => listing::TextLine::Total(le::read::<u64>(block, 0)),
        5 => listing::TextLine::Refusal {
            number: le::read(block, 0),
            place: le::read(block, 8),
        },
        _ => listing::TextLine::TooLong,
    }
}
