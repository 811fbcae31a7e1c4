ghost use Rattle.std.specs.Prelude.{◌≡◌, ℕ, ◌+◌, ◌<◌, List, length};
ghost use Rattle.record.specs.Nodes.{Nodes, node, count};
ghost use Rattle.record.specs.Fill.{Spelt, Fillable, Filled, NodeFilled};

use crate::index::Entry;
use crate::parse::{Passed, open};
use crate::run::Node;

// Fills in the entries of a run whose first node has the place `top`, and answers the places left below. The five stay parameters: a
// struct with the lent list in it would have to say after each call that the list is still the same.
#[cycle(filling)]
pub(crate) fn fill_run(bytes: &[u8], list: &mut [Entry], at: usize, end: usize, top: usize) -> usize
    requires { Fillable bytes.now at end top (length list.old) }
    ensures { (base : ℕ) (n : Nodes) → Spelt bytes.now at end n → base + count n ≡ top → Filled list.old list.new base at n top result }
{
    if at >= end {
        return top;
    }
    let passed = fill_node(bytes, list, at, end, top);
    fill_run(bytes, list, passed.next, end, passed.count)
}

// Fills in the entries of one node and its inside.
#[cycle(filling)]
fn fill_node(bytes: &[u8], list: &mut [Entry], at: usize, end: usize, top: usize) -> Passed
    requires fillable { Fillable bytes.now at end top (length list.old) }
    requires at_lt_end { at < end }
    ensures { (base k : ℕ) (t : List ℕ) (i a : Nodes) → Spelt bytes.now at end (node k t i a) → base + count (node k t i a) ≡ top → NodeFilled list.old list.new base at k t i a top result }
{
    let head = open(bytes, at);
    let below = top - 1;
    let left = fill_run(bytes, list, head.inside, head.end, below);
    // place 0 is the empty run, by a rule of the project
    let inside = if head.inside < head.end { below } else { 0 };
    let after = if head.end < end { left } else { 0 };
    list[below] = Entry {
        node: Node {
            kind: head.kind,
            inside,
            after,
        },
        offset: at,
        size: head.end - at,
    };
    Passed {
        next: head.end,
        count: left,
    }
}
