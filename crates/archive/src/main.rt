// The archive's program: draws a record file as a tree, or says why its bytes are no record.
#![tactic(auto)]

mod example;
mod refusal;
mod show;
#[cfg(test)]
mod tests;
mod tree;

use crate::example::tell;
use crate::show::show;
use std::env;
use std::process::ExitCode;

const USAGE: &str = "usage: archive show FILE
       archive example
  show FILE   draw the record in FILE as a tree, one node a line:
              kind, offset, whole byte count and text
  example     lay a form, admit a pattern, file a record, seal the box
              and find the marked nodes, and say what was done";

fn run(rt: &HostRuntime) -> anyhow::Result<ExitCode> {
    let mut args = env::args(rt)?.skip(1);
    let (command, file, more) = (args.next(), args.next(), args.next());
    match (&command, &file, &more) {
        (None, _, _) => {
            println!(rt; "{USAGE}")?;
            Ok(ExitCode::SUCCESS)
        }
        (Some(command), Some(file), None) if command.as_str() == "show" => show(rt, file.as_str()),
        (Some(command), None, _) if command.as_str() == "example" => {
            rt.print(tell(rt.alloc())?.as_str())?;
            Ok(ExitCode::SUCCESS)
        }
        _ => {
            eprintln!(rt; "{USAGE}")?;
            Ok(ExitCode::FAILURE)
        }
    }
}

fn main(rt: HostRuntime) -> anyhow::Result<ExitCode> {
    match run(&rt) {
        Ok(status) => Ok(status),
        Err(error) => {
            eprintln!(rt; "archive: {error}")?;
            Ok(ExitCode::FAILURE)
        }
    }
}
