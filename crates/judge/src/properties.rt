// A node's properties, and what is read of them by the numbers of their lines.
ghost use Rattle.std.specs.Prelude.{◌≡◌, length};
ghost use Rattle.le.specs.Le.{number_at};
ghost use Rattle.faces.specs.Faces.{width_of};
ghost use Rattle.judge.specs.Properties.{rest_at};
ghost use Rattle.judge.specs.ByLine.{has_number, length_by_line, value_by_line};
ghost use Rattle.judge.specs.Private.{place_found};

// A node's properties: its body, where each starts in it, and the number of each one's line (where that stands among the lines).
#[derive(Clone, Copy)]
pub(crate) struct Properties<'a> {
    pub(crate) body: &'a [u8],
    pub(crate) starts: &'a [usize],
    pub(crate) numbers: &'a [usize],
    ghost as_many: { length numbers.now ≡ length starts.now },
}

// The length and the first value of the property of a line; 0 where there is none.
#[derive(Clone, Copy)]
pub(crate) struct Read {
    pub(crate) length: u32,
    pub(crate) value: u32,
}

impl<'a> Properties<'a> {
    // Whether a line has a property.
    pub(crate) fn has(&self, line: usize) -> bool
        ensures { result ≡ has_number self.now.numbers.now line }
    {
        self.numbers.contains(&line)
    }

    // Where the first property of a line starts.
    pub(crate) fn place(&self, line: usize) -> Option<usize>
        ensures { result ≡ place_found self.now.starts.now self.now.numbers.now line }
    {
        let i = self.numbers.iter().position(|n| *n == line)?;
        Some(self.starts[i])
    }

    pub(crate) fn read(&self, line: usize) -> Read
        ensures length { result.length ≡ length_by_line self.now.body.now self.now.starts.now self.now.numbers.now line }
        ensures value { result.value ≡ value_by_line self.now.body.now self.now.starts.now self.now.numbers.now line }
    {
        let Some(at) = self.place(line) else {
            return Read {
                length: 0,
                value: 0,
            };
        };
        let header = props::header_at(self.body, at);
        Read {
            length: header.length,
            value: value_at(self.body, at, header.code),
        }
    }
}

// The first value of the property at a place, whose type is known.
pub(crate) fn value_at(body: &[u8], at: usize, code: u16) -> u32
    ensures { result ≡ number_at (width_of code) (rest_at body.now at) 0 }
{
    let width = faces::width_of(code);
    le::number_at(props::rest_at(body, at), 0, width)
}
