// Whole files: a box, one pattern, or one record.
ghost use Rattle.std.specs.Prelude.{◌↔◌, IsOk};
ghost use Rattle.notation.specs.Scan.{ReadOn};
ghost use Rattle.notation.specs.Text.{IsText};

use crate::block::Reader;
use crate::complaint::{Complaint, Wanted, What};
use crate::scan::{Cursor, Source};
use crate::text::check_text;
use crate::value::{
    BoxText, Entry, LaidText, Layout, Name, PatternText, RecordText, Vocabulary, Writing,
};
use std::alloc::Global;

// The most names of kinds, and of marks.
const MAX_NAMES: usize = 1024;

// The name that is next: a word that begins with a letter, and not `end`.
fn name(heap: Global, cursor: &mut Cursor) -> Result<String, What> {
    let word = cursor.token();
    match word {
        [] => Err(What::Wanted(Wanted::Name)),
        [first, ..] if first.is_ascii_alphabetic() && word != b"end".as_slice() => {
            let word = std::str::from_utf8(word).map_err(|_| What::BadName)?;
            Ok(String::from_str(heap, word)?)
        }
        _ => Err(What::BadName),
    }
}

// The name on the rest of a line.
fn title(heap: Global, cursor: &mut Cursor) -> Result<String, What> {
    let name = name(heap, cursor)?;
    cursor.end()?;
    Ok(name)
}

// The rest of a line that names a number: the number and its name, neither of them named before.
fn push_name(cursor: &mut Cursor, names: &mut Vec<Name>, most: u16) -> Result<(), What> {
    let number = cursor.number16(most)?;
    let word = title(*names.allocator(), cursor)?;
    if names.len() >= MAX_NAMES {
        return Err(What::TooManyNames);
    }
    let taken = names
        .iter()
        .find(|old| old.number == number || old.word == word);
    match taken {
        Some(old) if old.number == number => Err(What::NumberTwice),
        Some(_) => Err(What::NameTwice),
        None => {
            names.push(Name { number, word })?;
            Ok(())
        }
    }
}

// The name on the first line of a box file.
fn box_line(heap: Global, cursor: &mut Cursor) -> Result<String, What> {
    match cursor.token() {
        b"box" => title(heap, cursor),
        _ => Err(What::Wanted(Wanted::BoxLine)),
    }
}

// How classes are written, by the second line of a box file.
fn classes_line(cursor: &mut Cursor) -> Result<Writing, What> {
    if cursor.token() != b"classes".as_slice() {
        return Err(What::Wanted(Wanted::ClassesLine));
    }
    let writing = match cursor.token() {
        b"mask" => Writing::Mask,
        b"range" => Writing::Range,
        _ => return Err(What::Wanted(Wanted::Writing)),
    };
    cursor.end()?;
    Ok(writing)
}

// The next line of a file that may not end yet.
fn first_line<'a>(source: &mut Source<'a>) -> Result<Cursor<'a>, Complaint> {
    source.next().ok_or(Complaint::of_file(What::Nothing))
}

// The first two lines of a box file: its name, and a vocabulary without names.
fn head(heap: Global, source: &mut Source) -> Result<(String, Vocabulary), Complaint> {
    let mut cursor = first_line(source)?;
    let name = cursor.read(|line| box_line(heap, line))?;
    // where the second line is missing, the complaint is at the end of the first
    if let Some(next) = source.next() {
        cursor = next;
    }
    let writing = cursor.read(|line| classes_line(line))?;
    let vocabulary = Vocabulary {
        writing,
        kinds: Vec::new(heap),
        marks: Vec::new(heap),
    };
    Ok((name, vocabulary))
}

// The first word of a line of a box file, after its first two lines.
#[derive(Clone, Copy)]
enum Keyword {
    Kind,
    Mark,
    Form,
    Pattern,
    Record,
    Seal,
}

fn first_word(cursor: &mut Cursor) -> Result<Keyword, What> {
    match cursor.token() {
        b"kind" => Ok(Keyword::Kind),
        b"mark" => Ok(Keyword::Mark),
        b"form" => Ok(Keyword::Form),
        b"pattern" => Ok(Keyword::Pattern),
        b"record" => Ok(Keyword::Record),
        b"seal" => Ok(Keyword::Seal),
        _ => Err(What::Wanted(Wanted::BoxStatement)),
    }
}

// The names that stand before the form, and the line where the form begins, if there is one.
fn names(source: &mut Source, vocabulary: &mut Vocabulary) -> Result<Option<usize>, Complaint>
    ensures { ReadOn source.old source.new }
{
    while let Some(mut cursor) = source.next() {
        match cursor.read(|line| first_word(line))? {
            Keyword::Kind => cursor.read(|line| push_name(line, &mut vocabulary.kinds, 65_535))?,
            Keyword::Mark => cursor.read(|line| push_name(line, &mut vocabulary.marks, 15))?,
            Keyword::Form => {
                cursor.read(|line| line.end())?;
                return Ok(Some(cursor.line));
            }
            Keyword::Pattern | Keyword::Record | Keyword::Seal => {
                return cursor.complain(Err(What::BeforeForm));
            }
        }
    }
    Ok(None)
}

// How a record is written, by the rest of its first line.
fn record_line(heap: Global, cursor: &mut Cursor) -> Result<(String, Layout), What> {
    let name = name(heap, cursor)?;
    if cursor.peek().is_none() {
        return Ok((name, Layout::Nodes));
    }
    if cursor.token() != b"hex".as_slice() {
        return Err(What::Wanted(Wanted::HexOrEnd));
    }
    cursor.end()?;
    Ok((name, Layout::Hex))
}

// Whether a pattern, or a record, has the name of an entry of its sort already.
fn is_taken(entries: &[Entry], entry: &Entry) -> bool {
    entries.iter().any(|old| match (old, entry) {
        (Entry::Pattern(old), Entry::Pattern(new)) => old.name == new.name,
        (Entry::Record(old), Entry::Record(new)) => old.name == new.name,
        _ => false,
    })
}

// Adds a pattern or a record to what a box file says.
fn push_entry(entry: Entry, entries: &mut Vec<Entry>) -> Result<(), What> {
    if is_taken(entries, &entry) {
        return Err(What::TitleTwice);
    }
    entries.push(entry)?;
    Ok(())
}

impl<'a> Reader<'a> {
    // Begins a file, if it is text.
    fn new(
        heap: Global,
        text: &'a [u8],
        vocabulary: &'a Vocabulary,
    ) -> Result<Reader<'a>, Complaint>
        ensures { IsOk result ↔ IsText text.now }
    {
        check_text(text)?;
        Ok(Reader {
            heap,
            source: Source::new(text),
            vocabulary,
        })
    }

    // The rest of a pattern, after its first word.
    fn pattern(&mut self, mut cursor: Cursor<'a>) -> Result<PatternText, Complaint>
        ensures { ReadOn self.old.source self.new.source }
    {
        let heap = self.heap;
        let name = cursor.read(|line| title(heap, line))?;
        let table = self.table(cursor.line)?;
        Ok(PatternText { name, table })
    }

    // The rest of a record, after its first word.
    fn record(&mut self, mut cursor: Cursor<'a>) -> Result<RecordText, Complaint>
        ensures { ReadOn self.old.source self.new.source }
    {
        let heap = self.heap;
        let (name, layout) = cursor.read(|line| record_line(heap, line))?;
        let line = cursor.line;
        let bytes = match layout {
            Layout::Nodes => self.nodes(line)?,
            Layout::Hex => self.hex(line)?,
        };
        Ok(RecordText {
            name,
            bytes,
            layout,
            line,
        })
    }

    // One statement of a box file after its form.
    fn statement(&mut self, mut cursor: Cursor<'a>, laid: &mut LaidText) -> Result<(), Complaint>
        ensures { ReadOn self.old.source self.new.source }
    {
        let sealed = laid.sealed.is_some();
        let entry = match cursor.read(|line| first_word(line))? {
            Keyword::Kind | Keyword::Mark => return cursor.complain(Err(What::NameLate)),
            Keyword::Form => return cursor.complain(Err(What::FormLate)),
            Keyword::Pattern | Keyword::Record | Keyword::Seal if sealed => {
                return cursor.complain(Err(What::AfterSeal));
            }
            Keyword::Pattern => Entry::Pattern(self.pattern(cursor)?),
            Keyword::Record => Entry::Record(self.record(cursor)?),
            Keyword::Seal => {
                laid.sealed = Some(cursor.line);
                return cursor.read(|line| line.end());
            }
        };
        cursor.complain(push_entry(entry, &mut laid.entries))
    }

    // What a box file says from its form on; `line` is where the form begins.
    fn laid(mut self, line: usize) -> Result<LaidText, Complaint> {
        let mut laid = LaidText {
            form: self.table(line)?,
            entries: Vec::new(self.heap),
            sealed: None,
        };
        while let Some(cursor) = self.source.next() {
            self.statement(cursor, &mut laid)?;
        }
        Ok(laid)
    }
}

// What a box file says.
pub(crate) fn read_box(heap: Global, text: &[u8]) -> Result<BoxText, Complaint> {
    check_text(text)?;
    let mut source = Source::new(text);
    let (name, mut vocabulary) = head(heap, &mut source)?;
    let laid = match names(&mut source, &mut vocabulary)? {
        None => None,
        Some(line) => {
            let reader = Reader {
                heap,
                source,
                vocabulary: &vocabulary,
            };
            Some(reader.laid(line)?)
        }
    };
    Ok(BoxText {
        name,
        vocabulary,
        laid,
    })
}

// What a file says that holds one block, which begins with a word; `block` reads the rest of it.
fn read_one<'a, T: Drop, F: FnOnce(&mut Reader<'a>, Cursor<'a>) -> Result<T, Complaint>>(
    mut reader: Reader<'a>,
    word: &[u8],
    wanted: Wanted,
    block: F,
) -> Result<T, Complaint>
    requires { F.IsAlwaysCallable block }
{
    let mut cursor = first_line(&mut reader.source)?;
    if cursor.token() != word {
        return cursor.complain(Err(What::Wanted(wanted)));
    }
    let read = block(&mut reader, cursor)?;
    match reader.source.next() {
        None => Ok(read),
        Some(cursor) => cursor.complain(Err(What::SecondBlock)),
    }
}

// What a pattern file says.
pub(crate) fn read_pattern(
    heap: Global,
    text: &[u8],
    vocabulary: &Vocabulary,
) -> Result<PatternText, Complaint> {
    let reader = Reader::new(heap, text, vocabulary)?;
    read_one(reader, b"pattern", Wanted::PatternBlock, |reader, cursor| {
        reader.pattern(cursor)
    })
}

// What a record file in the notation says.
pub(crate) fn read_record(
    heap: Global,
    text: &[u8],
    vocabulary: &Vocabulary,
) -> Result<RecordText, Complaint> {
    let reader = Reader::new(heap, text, vocabulary)?;
    read_one(reader, b"record", Wanted::RecordBlock, |reader, cursor| {
        reader.record(cursor)
    })
}
