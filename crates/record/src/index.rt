ghost use Rattle.record.specs.Index.{Indexes};

use crate::fault::{Cause, Fault};
use crate::fill::fill_run;
use crate::limits::MAX_NODES;
use crate::parse::parse;
use crate::run::Node;

// An entry of an index: a node, where it begins, and how many bytes it takes in all.
#[derive(Clone, Copy, Default, PartialEq, Eq, Debug)]
pub struct Entry {
    pub node: Node,
    pub offset: usize,
    pub size: usize,
}

// Fills in an entry for each node of a record, place 1 the last in byte order, and answers how many. The list is lent, and refused by a
// number if it is too short.
pub fn index(bytes: &[u8], list: &mut [Entry]) -> Result<usize, Fault>
    ensures { Indexes bytes.now list.old list.new result }
{
    if list.len() < MAX_NODES {
        return Err(Fault {
            cause: Cause::ShortList,
            place: MAX_NODES,
        });
    }
    let count = parse(bytes)?;
    fill_run(bytes, list, 0, bytes.len(), count);
    Ok(count)
}
