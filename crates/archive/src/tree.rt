// A record drawn as a tree, one node a line.
use record::index::Entry;
use record::text::text;
use std::alloc::Global;
use std::fmt;
use std::fmt::Write;

// A node on the way down to the present one: where it ends, and whether it is the last of its run.
#[derive(Clone, Copy)]
struct Branch {
    end: usize,
    last: bool,
}

// The lines that lead down to a node, which is the last of `open`: nothing at the outermost level.
#[derive(Clone, Copy)]
struct Stem<'a> {
    open: &'a [Branch],
}

impl<'a> fmt::Display for Stem<'a> {
    fn fmt<W: fmt::Write>(&self, f: &mut fmt::Formatter<W>) -> fmt::Result {
        let [_, below @ ..] = self.open else {
            return Ok(());
        };
        let Some((here, above)) = below.split_last() else {
            return Ok(());
        };
        for branch in above {
            f.write_str(if branch.last { "   " } else { "│  " })?;
        }
        f.write_str(if here.last { "└─ " } else { "├─ " })
    }
}

// A node's text in quotes: as it is where it is printable, and with other bytes escaped. Nothing for an empty text.
#[derive(Clone, Copy)]
struct Quoted<'a> {
    bytes: &'a [u8],
}

impl<'a> fmt::Display for Quoted<'a> {
    fn fmt<W: fmt::Write>(&self, f: &mut fmt::Formatter<W>) -> fmt::Result {
        if self.bytes.is_empty() {
            return Ok(());
        }
        match std::str::from_utf8(self.bytes) {
            Ok(text) => write!(f, ": \"{}\"", text.escape_debug()),
            Err(_) => write!(f, ": \"{}\"", self.bytes.escape_ascii()),
        }
    }
}

// The record with the index `nodes`, under a line that says how large it is.
pub(crate) fn draw(
    heap: Global,
    name: &str,
    bytes: &[u8],
    nodes: &[Entry],
) -> anyhow::Result<String> {
    let mut tree = String::new(heap);
    let mut open: Vec<Branch> = Vec::new(heap);
    let mut levels = 0;
    for entry in nodes.iter().rev() {
        let Entry { node, offset, size } = *entry;
        let around = open.iter().take_while(|branch| offset < branch.end).count();
        open.truncate(around);
        open.push(Branch {
            end: offset.saturating_add(size),
            last: node.after == 0,
        })?;
        levels = open.len().max(levels);
        let stem = Stem { open: &open };
        let words = Quoted {
            bytes: text(bytes, offset).unwrap_or_default(),
        };
        let kind = node.kind;
        writeln!(
            tree,
            "{stem}kind {kind}, offset {offset}, {size} bytes{words}"
        )?;
    }
    let size = bytes.len();
    let count = nodes.len();
    Ok(format!(in heap;
        "{name} is a record: {size} bytes, {count} nodes, {levels} levels.\n{tree}"
    )?)
}
