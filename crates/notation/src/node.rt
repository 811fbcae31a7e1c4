// Nested nodes, one after another, into the bytes of a record.
ghost use Rattle.std.specs.Prelude.{IfOk, OnOk};
ghost use Rattle.notation.specs.Spelt.{Spelt, Put, IsRecord};

use crate::complaint::What;
use std::alloc::Global;

// The most bytes that the notation gives one record, the most of a text, and the most levels.
pub const MAX_RECORD: usize = 1_048_576;

pub const MAX_TEXT: usize = 65_535;

pub const MAX_DEPTH: usize = 256;

// Writes a node after a run: its length, kind, text size, text and inside.
fn push_node(run: &mut Vec<u8>, kind: u16, text: &[u8], inside: &[u8]) -> Result<(), What>
    ensures { OnOk result (Put run.old run.new kind text.now inside.now) }
{
    if text.len() > MAX_TEXT {
        return Err(What::TextTooLong);
    }
    if inside.len() > MAX_RECORD {
        return Err(What::RecordTooLong);
    }
    let size = 4 + text.len() + inside.len();
    run.extend_from_slice(&(size as u32).to_le_bytes())?;
    run.extend_from_slice(&kind.to_le_bytes())?;
    run.extend_from_slice(&(text.len() as u16).to_le_bytes())?;
    run.extend_from_slice(text)?;
    run.extend_from_slice(inside)?;
    Ok(())
}

// A node whose inside is being read, and the run before it.
#[derive(Drop)]
struct Unfinished {
    kind: u16,
    text: Vec<u8>,
    before: Vec<u8>,
    ghost spelt: { ∥ Spelt before.items ∥₁ },
}

// The nodes whose insides are being read, outermost first, and the run inside the last of them.
#[derive(Drop)]
pub struct Builder {
    open: Vec<Unfinished>,
    run: Vec<u8>,
    ghost spelt: { ∥ Spelt run.items ∥₁ },
}

impl Builder {
    pub(crate) fn new(heap: Global) -> Builder {
        Builder {
            open: Vec::new(heap),
            run: Vec::new(heap),
        }
    }

    // Adds a node with nothing inside.
    pub(crate) fn leaf(self, kind: u16, text: &[u8]) -> Result<Builder, What> {
        let Builder { open, mut run } = self;
        push_node(&mut run, kind, text, &[])?;
        Ok(Builder { open, run })
    }

    // Begins a node; what comes next goes inside it.
    pub(crate) fn begin(self, kind: u16, text: Vec<u8>) -> Result<Builder, What> {
        let Builder { mut open, run } = self;
        let heap = *run.allocator();
        if open.len() >= MAX_DEPTH {
            return Err(What::TooDeep);
        }
        open.push(Unfinished {
            kind,
            text,
            before: run,
        })?;
        Ok(Builder {
            open,
            run: Vec::new(heap),
        })
    }

    // Ends the node that was begun last.
    pub(crate) fn close(self) -> Result<Builder, What> {
        let Builder { mut open, run } = self;
        let Some(node) = open.pop() else {
            return Err(What::BraceUnopened);
        };
        let Unfinished {
            kind,
            text,
            mut before,
        } = node;
        push_node(&mut before, kind, &text, &run)?;
        Ok(Builder { open, run: before })
    }

    // The bytes of the nodes, if each is ended and they are few enough.
    pub(crate) fn finish(self) -> Result<Vec<u8>, What>
        ensures { IfOk result (λ v. IsRecord v.items) }
    {
        let Builder { open, run } = self;
        if !open.is_empty() {
            return Err(What::BraceUnclosed);
        }
        if run.len() > MAX_RECORD {
            return Err(What::RecordTooLong);
        }
        Ok(run)
    }
}
