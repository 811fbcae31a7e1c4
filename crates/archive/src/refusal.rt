// Refusals of a record as sentences: number, layer, place, what it means here and what to do.
use record::fault::{Cause, Fault, Flaw};
use record::limits::{MAX_BYTES, MAX_LEVELS, MAX_NODES};
use std::fmt;

// The first bytes at a place, in hexadecimal; nothing if there are none.
#[derive(Clone, Copy)]
struct BytesAt<'a> {
    bytes: &'a [u8],
    place: usize,
}

impl<'a> fmt::Display for BytesAt<'a> {
    fn fmt<W: fmt::Write>(&self, f: &mut fmt::Formatter<W>) -> fmt::Result {
        let found = self.bytes.get(self.place..).unwrap_or_default();
        if found.is_empty() {
            return Ok(());
        }
        f.write_str(" The bytes there are")?;
        for byte in found.iter().take(8) {
            write!(f, " {byte:02x}")?;
        }
        f.write_str(".")
    }
}

// What is wrong with the node at a place.
#[derive(Clone, Copy)]
struct FlawAt {
    flaw: Flaw,
    place: usize,
}

impl fmt::Display for FlawAt {
    fn fmt<W: fmt::Write>(&self, f: &mut fmt::Formatter<W>) -> fmt::Result {
        let place = self.place;
        match self.flaw {
            Flaw::TooDeep => write!(
                f,
                "the node at byte {place} is one level too deep: a record has at most {MAX_LEVELS} levels. File it with fewer nodes in one another."
            ),
            Flaw::TooMany => write!(
                f,
                "the node at byte {place} is one too many: a record has at most {MAX_NODES} nodes. Split it into several records."
            ),
            Flaw::CutShort => write!(
                f,
                "the node at byte {place} does not fit its run: fewer than 8 bytes are left there, or its length is below 4 or runs past the end of the run. Look for bytes that were lost or added at or before this place."
            ),
            Flaw::TextTooLong => write!(
                f,
                "the node at byte {place} has a text size larger than its length leaves room for. Look for damage in its first 8 bytes."
            ),
        }
    }
}

// Why bytes are no record.
#[derive(Clone, Copy)]
pub(crate) struct Explanation<'a> {
    pub name: &'a str,
    pub bytes: &'a [u8],
    pub fault: Fault,
}

impl<'a> fmt::Display for Explanation<'a> {
    fn fmt<W: fmt::Write>(&self, f: &mut fmt::Formatter<W>) -> fmt::Result {
        let name = self.name;
        let bytes = self.bytes;
        let number = self.fault.number();
        let place = self.fault.place;
        write!(
            f,
            "{name} is refused by number {number} (layer record, place {place}): "
        )?;
        match self.fault.cause {
            Cause::TooLong => writeln!(
                f,
                "it has more than {MAX_BYTES} bytes, the most that a record may have. Split it into several records."
            ),
            Cause::Flawed(flaw) => {
                let flaw = FlawAt { flaw, place };
                let found = BytesAt { bytes, place };
                writeln!(f, "{flaw}{found}")
            }
            Cause::ShortList => writeln!(
                f,
                "the index list is too short: it needs {place} entries."
            ),
            Cause::NoNode => writeln!(f, "no node starts at this offset."),
        }
    }
}
