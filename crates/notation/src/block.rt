// Blocks: what stands between a line that begins a form, a pattern or a record and its `end`.
ghost use Rattle.std.specs.Prelude.{IfOk, Ok};
ghost use Rattle.std.specs.declared.ops.ControlFlow.TheVariants.{Break};
ghost use Rattle.std.specs.ControlFlow.{ForBreak};
ghost use Rattle.notation.specs.Scan.{ReadOn};
ghost use Rattle.notation.specs.Spelt.{IsRecord};

use crate::complaint::{Complaint, Wanted, What};
use crate::node::Builder;
use crate::quote::hex_byte;
use crate::rule::{empty_rule, states};
use crate::scan::{Cursor, Source};
use crate::value::{TableText, Vocabulary};
use std::alloc::Global;
use std::ops::ControlFlow;

// A file that is being read, the names that its words may use, and the heap for what it says.
// That a method only reads on (`ReadOn`) is a clause of each: it compares the source at two moments, and a field holds at one.
#[derive(Drop)]
pub struct Reader<'a> {
    pub(crate) heap: Global,
    pub(crate) source: Source<'a>,
    pub(crate) vocabulary: &'a Vocabulary,
}

// A line of a record that is written as nested nodes.
#[derive(Drop)]
enum NodeLine {
    Leaf { kind: u16, text: Vec<u8> },
    Begin { kind: u16, text: Vec<u8> },
    Close,
    End,
}

impl Vocabulary {
    // One line of a table: what the table says so far, or all of it at its `end`.
    fn table_line(
        &self,
        cursor: &mut Cursor,
        mut table: TableText,
    ) -> Result<ControlFlow<TableText, TableText>, What> {
        match cursor.token() {
            b"starts" => table.starts |= states(cursor)?,
            b"finals" => table.finals |= states(cursor)?,
            b"rule" => table.rules.push(self.node_rule(cursor)?)?,
            b"empty" => table.rules.push(empty_rule(cursor)?)?,
            b"end" => {
                cursor.end()?;
                return Ok(ControlFlow::Break(table));
            }
            _ => return Err(What::Wanted(Wanted::TableStatement)),
        }
        cursor.end()?;
        Ok(ControlFlow::Continue(table))
    }

    fn node_line(&self, heap: Global, cursor: &mut Cursor) -> Result<NodeLine, What> {
        if cursor.take(b'}') {
            cursor.end()?;
            return Ok(NodeLine::Close);
        }
        let mut ahead = *cursor;
        if ahead.token() == b"end".as_slice() {
            *cursor = ahead;
            cursor.end()?;
            return Ok(NodeLine::End);
        }
        let kind = self.kind(cursor)?;
        let text = match cursor.peek() {
            Some(b'"') => cursor.text(heap)?,
            _ => Vec::new(heap),
        };
        let begins = cursor.take(b'{');
        cursor.end()?;
        if begins {
            Ok(NodeLine::Begin { kind, text })
        } else {
            Ok(NodeLine::Leaf { kind, text })
        }
    }
}

// The nodes with one more line, or their bytes at `end`.
fn with_line(builder: Builder, line: NodeLine) -> Result<ControlFlow<Vec<u8>, Builder>, What>
    ensures { IfOk result (λ next. ForBreak next (λ v. IsRecord v.items)) }
{
    match line {
        NodeLine::Leaf { kind, text } => Ok(ControlFlow::Continue(builder.leaf(kind, &text)?)),
        NodeLine::Begin { kind, text } => Ok(ControlFlow::Continue(builder.begin(kind, text)?)),
        NodeLine::Close => Ok(ControlFlow::Continue(builder.close()?)),
        NodeLine::End => Ok(ControlFlow::Break(builder.finish()?)),
    }
}

// The bytes that a word of hexadecimal digits writes, two digits a byte.
fn push_hex(word: &[u8], bytes: &mut Vec<u8>) -> Result<(), What> {
    for digits in word.chunks(2) {
        let [high, low] = digits else {
            return Err(What::BadHex);
        };
        let Some(byte) = hex_byte(*high, *low) else {
            return Err(What::BadHex);
        };
        bytes.push(byte)?;
    }
    Ok(())
}

// One line of bytes: the bytes so far, or all of them at `end`.
fn hex_line(
    cursor: &mut Cursor,
    mut bytes: Vec<u8>,
) -> Result<ControlFlow<Vec<u8>, Vec<u8>>, What> {
    while cursor.peek().is_some() {
        let word = cursor.token();
        if word == b"end".as_slice() {
            cursor.end()?;
            return Ok(ControlFlow::Break(bytes));
        }
        if word.is_empty() {
            return Err(What::Wanted(Wanted::HexOrEnd));
        }
        push_hex(word, &mut bytes)?;
    }
    Ok(ControlFlow::Continue(bytes))
}

impl<'a> Reader<'a> {
    // What the lines of a block say, each read by `step` after what was read before it; `line` is where the block began.
    fn block<B: Drop, T: Drop, F: Fn(B, &mut Cursor<'a>) -> Result<ControlFlow<T, B>, What>>(
        &mut self,
        line: usize,
        none: B,
        step: F,
    ) -> Result<T, Complaint>
        requires { F.IsAlwaysCallable step }
        ensures source { ReadOn self.old.source self.new.source }
        ensures ended { IfOk result (λ all. (b : B) × (c : _) × (d : _) × F.post step b c (Ok (Break all)) d) }
    {
        let mut read = none;
        while let Some(mut cursor) = self.source.next() {
            let next = step(read, &mut cursor);
            match cursor.complain(next)? {
                ControlFlow::Break(all) => return Ok(all),
                ControlFlow::Continue(more) => read = more,
            }
        }
        Err(Complaint::of_block(line, What::BlockUnclosed))
    }

    // The lines of a table up to its `end`.
    pub(crate) fn table(&mut self, line: usize) -> Result<TableText, Complaint>
        ensures { ReadOn self.old.source self.new.source }
    {
        let vocabulary = self.vocabulary;
        let none = TableText {
            starts: 0,
            finals: 0,
            rules: Vec::new(self.heap),
            line,
        };
        self.block(line, none, |table, cursor| {
            vocabulary.table_line(cursor, table)
        })
    }

    // The bytes of the nodes up to `end`.
    pub(crate) fn nodes(&mut self, line: usize) -> Result<Vec<u8>, Complaint>
        ensures source { ReadOn self.old.source self.new.source }
        ensures bytes { IfOk result (λ v. IsRecord v.items) }
    {
        let heap = self.heap;
        let vocabulary = self.vocabulary;
        self.block(line, Builder::new(heap), |nodes, cursor| {
            with_line(nodes, vocabulary.node_line(heap, cursor)?)
        })
    }

    // The bytes in hexadecimal up to `end`.
    pub(crate) fn hex(&mut self, line: usize) -> Result<Vec<u8>, Complaint>
        ensures { ReadOn self.old.source self.new.source }
    {
        self.block(line, Vec::new(self.heap), |bytes, cursor| {
            hex_line(cursor, bytes)
        })
    }
}
