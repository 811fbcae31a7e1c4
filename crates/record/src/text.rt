ghost use Rattle.std.specs.Option.{MatchOption};
ghost use Rattle.record.specs.Record.{IsRecord};
ghost use Rattle.std.specs.Result.{MatchResult};
ghost use Rattle.record.specs.Text.{Unstarted, Found, Texted, Untexted};

use crate::fault::{Cause, Fault};
use crate::limits::NODE_PLACE;
use crate::parse::{Head, open, parse};

// The head of the node of a record that starts at an offset.
fn seek(bytes: &[u8], offset: usize) -> Option<Head>
    requires { IsRecord bytes.now }
    ensures { MatchOption result (Unstarted bytes.now offset) (λ h. Found bytes.now offset h) }
{
    let mut at = 0;
    let mut end = bytes.len();
    // a step goes into a node or past it, by the length that the node states: no iterator gives the next
    while at < end {
        let head = open(bytes, at);
        if offset == at {
            return Some(head);
        }
        if offset < head.end {
            at = head.inside;
            end = head.end;
        } else {
            at = head.end;
        }
    }
    None
}

// The text of the node of a record that starts at an offset.
pub fn text(bytes: &[u8], offset: usize) -> Result<&[u8], Fault>
    ensures { MatchResult result (λ t. Texted bytes.now offset t.now) (λ e. Untexted bytes.now offset e) }
{
    parse(bytes)?;
    let head = seek(bytes, offset).ok_or(Fault {
        cause: Cause::NoNode,
        place: NODE_PLACE,
    })?;
    let inside = head.inside;
    Ok(&bytes[offset + 8..inside])
}
