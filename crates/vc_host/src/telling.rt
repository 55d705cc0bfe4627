//! The report of a status.

use std::io;
use vc_top::Status;

/// Tells on standard error how the program of this name ended, where it isn't fine.
pub fn report(rt: &impl Eprint, name: &str, status: Status) -> io::Result<()> {
    let text = status.text();
    match status {
        Status::Fine => Ok(()),
        Status::BadLine { line } | Status::NotARun { line } => {
            eprintln!(rt; "{name}: {text} {line}")
        }
        Status::BadMessage { at } => eprintln!(rt; "{name}: {text} {at}"),
        _ => eprintln!(rt; "{name}: {text}"),
    }
}
