// Rules as text: a:C[i]b with its marks.
ghost use Rattle.std.specs.Prelude.{ℕ, ◌^◌, ◌<◌, ◌≤◌, Bool, Result, IfOk, OnOk};
ghost use Rattle.notation.specs.Scan.{Passed, Went};
ghost use Rattle.notation.specs.Rule.{WrittenAs, IsMask, IsRange, RuleOf};

use crate::complaint::{Wanted, What};
use crate::names::number_of;
use crate::number::decimal;
use crate::scan::Cursor;
use crate::value::{ClassText, Name, RuleText, StepText, Vocabulary, Writing};

// The number that is next, by digits or by a name.
fn named(
    cursor: &mut Cursor,
    names: &[Name],
    most: u32,
    wanted: Wanted,
    unknown: What,
) -> Result<u32, What>
    ensures { IfOk result (λ n. Passed cursor.old cursor.new × (n ≤ most)) }
{
    let word = cursor.token();
    match word {
        [] => Err(What::Wanted(wanted)),
        [first, ..] if first.is_ascii_digit() => decimal(word, most),
        _ => match number_of(names, word) {
            Some(number) if number as u32 <= most => Ok(number as u32),
            Some(_) => Err(What::NumberTooLarge { most }),
            None => Err(unknown),
        },
    }
}

// The set of a first member below `size`, and of one more as long as `more` sees that it follows.
fn members<F: Fn(&mut Cursor) -> Result<u32, What>, G: Fn(&mut Cursor) -> bool>(
    cursor: &mut Cursor,
    size: u32,
    member: F,
    more: G,
) -> Result<u64, What>
    requires size { size ≤ 64 }
    requires member { F.IsAlwaysCallable member }
    requires more { G.IsAlwaysCallable more }
    requires passes { (c : _) (r : Result ℕ What) (d : _) → F.post member c r d → IfOk r (λ n. Passed c.now d.now × (n < size)) }
    requires stays { (c : _) (r : Bool) (d : _) → G.post more c r d → Went c.now d.now }
    ensures { IfOk result (λ set. set < 2 ^ size) }
{
    let mut set = 1 << member(cursor)?;
    while more(cursor) {
        set |= 1 << member(cursor)?;
    }
    Ok(set)
}

// The states on the rest of a line, at least one.
pub(crate) fn states(cursor: &mut Cursor) -> Result<u64, What> {
    members(
        cursor,
        64,
        |line| line.number(63),
        |line| line.peek().is_some(),
    )
}

// What a line says by the names of a box and in its writing of classes.
impl Vocabulary {
    // The kind that is next, if it is at most `most`.
    fn kind_to(&self, cursor: &mut Cursor, most: u32) -> Result<u32, What>
        ensures { IfOk result (λ n. Passed cursor.old cursor.new × (n ≤ most)) }
    {
        named(cursor, &self.kinds, most, Wanted::Kind, What::UnknownKind)
    }

    // The kind that is next.
    pub(crate) fn kind(&self, cursor: &mut Cursor) -> Result<u16, What>
        ensures { OnOk result (Passed cursor.old cursor.new) }
    {
        Ok(self.kind_to(cursor, 65_535)? as u16)
    }

    // The mark that is next.
    fn mark(&self, cursor: &mut Cursor) -> Result<u32, What>
        ensures { IfOk result (λ n. Passed cursor.old cursor.new × (n ≤ 15)) }
    {
        named(cursor, &self.marks, 15, Wanted::Mark, What::UnknownMark)
    }

    // The kinds of a mask, between braces.
    fn mask(&self, cursor: &mut Cursor) -> Result<ClassText, What>
        ensures { IfOk result IsMask }
    {
        cursor.expect(b'{', Wanted::OpenBrace)?;
        if cursor.take(b'}') {
            return Ok(ClassText::Mask(0));
        }
        let set = members(
            cursor,
            64,
            |line| self.kind_to(line, 63),
            |line| line.take(b','),
        )?;
        cursor.expect(b'}', Wanted::CloseBrace)?;
        Ok(ClassText::Mask(set))
    }

    // A range, or one kind.
    fn range(&self, cursor: &mut Cursor) -> Result<ClassText, What>
        ensures { IfOk result IsRange }
    {
        let first = self.kind(cursor)?;
        if !cursor.take(b'.') {
            return Ok(ClassText::Range { first, last: first });
        }
        cursor.expect(b'.', Wanted::Dots)?;
        let last = self.kind(cursor)?;
        Ok(ClassText::Range { first, last })
    }

    // A class, in the writing of the box.
    fn class(&self, cursor: &mut Cursor) -> Result<ClassText, What>
        ensures { IfOk result (λ c. WrittenAs self.now.writing c) }
    {
        match self.writing {
            Writing::Mask => self.mask(cursor),
            Writing::Range => self.range(cursor),
        }
    }

    // The marks on the rest of a line, after their word; none if the line ends.
    fn marks(&self, cursor: &mut Cursor) -> Result<u16, What> {
        if cursor.peek().is_none() {
            return Ok(0);
        }
        if cursor.token() != b"marks".as_slice() {
            return Err(What::Wanted(Wanted::Marks));
        }
        let set = members(
            cursor,
            16,
            |line| self.mark(line),
            |line| line.peek().is_some(),
        )?;
        Ok(set as u16)
    }

    // A node rule.
    pub(crate) fn node_rule(&self, cursor: &mut Cursor) -> Result<RuleText, What>
        ensures { IfOk result (λ t. RuleOf self.now.writing t) }
    {
        let from = cursor.state()?;
        cursor.expect(b':', Wanted::Colon)?;
        let class = self.class(cursor)?;
        cursor.expect(b'[', Wanted::OpenBracket)?;
        let inside = cursor.state()?;
        cursor.expect(b']', Wanted::CloseBracket)?;
        let to = cursor.state()?;
        let marks = self.marks(cursor)?;
        let step = StepText::Node {
            class,
            inside,
            marks,
        };
        Ok(RuleText {
            from,
            to,
            step,
            line: cursor.line,
        })
    }
}

// An empty rule.
pub(crate) fn empty_rule(cursor: &mut Cursor) -> Result<RuleText, What> {
    let from = cursor.state()?;
    let to = cursor.state()?;
    Ok(RuleText {
        from,
        to,
        step: StepText::Empty,
        line: cursor.line,
    })
}
