ghost use Rattle.std.specs.Prelude.{◌+◌, ◌<◌, ◌≤◌, length, MatchResult};
ghost use Rattle.record.specs.Limits.{max_bytes};
ghost use Rattle.record.specs.Record.{Called, Refused, Faulty};
ghost use Rattle.record.specs.Parse.{at, Headed, Opened, Ready, RunParsed, NodeParsed, Recorded};

use crate::fault::{Cause, Fault, Flaw};
use crate::limits::{MAX_BYTES, MAX_LEVELS, MAX_NODES};

// What the first 8 bytes of a node say: its kind, where its inside begins, and where the node ends.
#[derive(Clone, Copy)]
pub struct Head {
    pub kind: u16,
    pub inside: usize,
    pub end: usize,
}

// Where parsing goes on after a node, and how many nodes there are up to there.
#[derive(Clone, Copy)]
pub struct Passed {
    pub next: usize,
    pub count: usize,
}

// What the bytes at an offset say, as a node's. Numbers have their lowest byte first.
pub(crate) fn open(bytes: &[u8], at: usize) -> Head
    requires at_in_bounds { at + 8 ≤ length bytes.now }
    requires bytes_len_bound { length bytes.now ≤ max_bytes }
    ensures { Headed bytes.now at result }
{
    let size = u32::from_le_bytes([bytes[at], bytes[at + 1], bytes[at + 2], bytes[at + 3]]);
    let kind = u16::from_le_bytes([bytes[at + 4], bytes[at + 5]]);
    let text = u16::from_le_bytes([bytes[at + 6], bytes[at + 7]]);
    Head {
        kind,
        inside: at + 8 + text as usize,
        end: at + 4 + size as usize,
    }
}

// The rest of a run: the bytes from `at` to `end`, at a level, with so many nodes before them. That it is ready to be parsed is asked at
// each call: it tells how the node here came to be due, and a field for facts takes no such account.
#[derive(Clone, Copy)]
struct Rest<'a> {
    bytes: &'a [u8],
    at: usize,
    end: usize,
    level: usize,
    before: usize,
}

impl<'a> Rest<'a> {
    // The head of the node that is next if it has no flaw, or its first flaw.
    fn sound_head(&self) -> Result<Head, Flaw>
        requires { at Ready self.now }
        ensures { MatchResult result (at Opened self.now) (at Called self.now) }
    {
        if self.level > MAX_LEVELS {
            return Err(Flaw::TooDeep);
        }
        if self.before >= MAX_NODES {
            return Err(Flaw::TooMany);
        }
        if self.end - self.at < 8 {
            return Err(Flaw::CutShort);
        }
        let head = open(self.bytes, self.at);
        if head.end < self.at + 8 || head.end > self.end {
            return Err(Flaw::CutShort);
        }
        if head.inside > head.end {
            return Err(Flaw::TextTooLong);
        }
        Ok(head)
    }

    // Parses the nodes in turn, and answers how many nodes there are by the end.
    #[cycle(parsing)]
    fn parse_run(&self) -> Result<usize, Fault>
        requires { at Ready self.now }
        ensures { MatchResult result (at RunParsed self.now) (Faulty self.now.bytes.now) }
    {
        let mut rest = *self;
        while rest.at < rest.end {
            let passed = rest.parse_node()?;
            rest.at = passed.next;
            rest.before = passed.count;
        }
        Ok(rest.before)
    }

    // Parses the node that is next, and its inside.
    #[cycle(parsing)]
    fn parse_node(&self) -> Result<Passed, Fault>
        requires ready { at Ready self.now }
        requires at_lt_end { self.now.at < self.now.end }
        ensures { MatchResult result (at NodeParsed self.now) (Faulty self.now.bytes.now) }
    {
        // not by `map_err` and `?`: through its closure the proofs of the two functions that call one another did not close
        match self.sound_head() {
            Err(flaw) => Err(Fault {
                cause: Cause::Flawed(flaw),
                place: self.at,
            }),
            Ok(head) => {
                let inside = Rest {
                    bytes: self.bytes,
                    at: head.inside,
                    end: head.end,
                    level: self.level + 1,
                    before: self.before + 1,
                };
                let count = inside.parse_run()?;
                Ok(Passed {
                    next: head.end,
                    count,
                })
            }
        }
    }
}

// Checks that bytes are a record, and counts its nodes.
pub(crate) fn parse(bytes: &[u8]) -> Result<usize, Fault>
    ensures { MatchResult result (λ n. Recorded bytes.now n) (λ e. Refused bytes.now e) }
{
    if bytes.len() > MAX_BYTES {
        return Err(Fault {
            cause: Cause::TooLong,
            place: 0,
        });
    }
    let whole = Rest {
        bytes,
        at: 0,
        end: bytes.len(),
        level: 1,
        before: 0,
    };
    whole.parse_run()
}
