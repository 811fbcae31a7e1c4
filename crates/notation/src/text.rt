// A file as a whole: whether it is text at all.
ghost use Rattle.std.specs.Prelude.{◌≡◌, true, ◌↔◌, IsOk};
ghost use Rattle.notation.specs.Text.{Plain, IsText, IsFile};

use crate::complaint::{Complaint, What};
use crate::scan::{Source, is_control};

// The most bytes of a file of the notation.
pub const MAX_FILE: usize = 268_435_456;

// No byte is a control character.
fn is_plain(bytes: &[u8]) -> bool
    ensures { (result ≡ true) ↔ Plain bytes.now }
{
    bytes.iter().all(|byte| !is_control(*byte))
}

// The first line that is not UTF-8 or has a control character, in bytes that are not text.
fn fault(text: &[u8]) -> Complaint {
    let mut source = Source::new(text);
    while let Some(mut cursor) = source.next_line() {
        if let Err(complaint) = cursor.read(|line| line.check_line()) {
            return complaint;
        }
    }
    Complaint::of_file(What::NotUtf8)
}

// Refuses a file that is too large, is not UTF-8 or has a control character.
pub(crate) fn check_text(text: &[u8]) -> Result<(), Complaint>
    ensures { IsOk result ↔ IsText text.now }
{
    if text.len() > MAX_FILE {
        return Err(Complaint::of_file(What::FileTooLarge));
    }
    if is_plain(text) && std::str::from_utf8(text).is_ok() {
        Ok(())
    } else {
        Err(fault(text))
    }
}

// Whether a file is text, and so in the notation. A record of one node or more has a zero byte among its first four, so it is not.
pub fn is_text(bytes: &[u8]) -> bool
    ensures { (result ≡ true) ↔ IsFile bytes.now }
{
    !bytes.is_empty() && check_text(bytes).is_ok()
}
