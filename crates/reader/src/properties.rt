// The properties of a node, and its links by them: refusals 16 and 17.
ghost use Rattle.std.specs.Prelude.{◌≡◌, ◌+◌, ◌^◌, ◌≤◌, ◌<◌, map, length};
ghost use Rattle.rules.specs.Packing.{lines_from};
ghost use Rattle.judge.specs.Properties.{line_number};
ghost use Rattle.judge.specs.Private.{StartsWithin};

use crate::targets::Targets;
use base::{Reason, Refusal};

// A node's properties, as its judgement noted them: by the lines of its kind, by its body and where that starts, by where the properties
// start in it, and by the numbers of their lines.
#[derive(Clone, Copy)]
pub(crate) struct Properties<'a> {
    pub(crate) lines: &'a [rules::Line],
    pub(crate) start: usize,
    pub(crate) body: &'a [u8],
    pub(crate) starts: &'a [usize],
    pub(crate) numbers: &'a [usize],
    ghost end: { start + length body.now < 2 ^ 64 },
    ghost within: { StartsWithin body.now starts.now },
    ghost numbered: { numbers.now ≡ map (line_number (lines_from lines.now) body.now) starts.now },
}

impl<'a> Properties<'a> {
    ghost use Rattle.links.specs.Links.{linked_told};
    ghost use Rattle.links.specs.Private.{node_linked};
    ghost use Rattle.reader.specs.Private.{target_count};

    // The links among them, after a given number of links before the node.
    pub(crate) fn links(self, targets: Targets, before: usize) -> Result<usize, Refusal>
        requires { before + length self.starts.now < 2 ^ 32 }
        ensures result { linked_told result ≡ node_linked (target_count targets.entry)
            (lines_from self.entry.lines.now) self.entry.start self.entry.body.now before self.entry.starts.now }
        ensures links { (linked_told result).links ≤ before + length self.entry.starts.now }
    {
        let mut links = before;
        for (i, &at) in self.starts.iter().enumerate() {
            let line = rules::line_in(self.lines, self.numbers[i]);
            if let rules::Held::Link(target) = line.held {
                let hash: u64 = le::read(props::rest_at(self.body, at), 0);
                let n = targets.count(target, hash);
                if n == 0 {
                    return Err(Reason::LinkToNone.at(self.start + at));
                }
                if n != 1 {
                    return Err(Reason::LinkToMany.at(self.start + at));
                }
                links += 1;
            }
        }
        Ok(links)
    }
}
