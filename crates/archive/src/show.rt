// `archive show FILE`.
use crate::refusal::Explanation;
use crate::tree::draw;
use record::index::{Entry, index};
use record::limits::{MAX_BYTES, MAX_NODES};
use std::alloc::Global;
use std::fs::File;
use std::io;
use std::io::Read;
use std::process::ExitCode;

// The record drawn as a tree, or the sentence that says why the bytes are none.
pub(crate) fn render(
    heap: Global,
    name: &str,
    bytes: &[u8],
) -> anyhow::Result<Result<String, String>> {
    let mut list = vec![in heap; Entry::default(); MAX_NODES]?;
    match index(bytes, &mut list) {
        Ok(top) => Ok(Ok(draw(heap, name, bytes, list.get(..top).unwrap_or_default())?)),
        Err(fault) => {
            let explanation = Explanation { name, bytes, fault };
            Ok(Err(explanation.to_string(heap)?))
        }
    }
}

// The bytes of a file, up to one more than a record may have.
fn read(rt: &HostRuntime, name: &str) -> io::Result<Vec<u8>> {
    let file = File::open(rt, name)?;
    let mut bytes = Vec::new(rt.alloc());
    file.take(MAX_BYTES as u64 + 1).read_to_end(&mut bytes)?;
    Ok(bytes)
}

// Prints what a record file holds; a failure if it holds no record or cannot be read.
pub(crate) fn show(rt: &HostRuntime, name: &str) -> anyhow::Result<ExitCode> {
    let bytes = match read(rt, name) {
        Ok(bytes) => bytes,
        Err(error) => {
            eprintln!(rt; "archive: {name} cannot be read: {error}")?;
            return Ok(ExitCode::FAILURE);
        }
    };
    match render(rt.alloc(), name, &bytes)? {
        Ok(tree) => {
            rt.print(tree.as_str())?;
            Ok(ExitCode::SUCCESS)
        }
        Err(sentence) => {
            rt.eprint(sentence.as_str())?;
            Ok(ExitCode::FAILURE)
        }
    }
}
