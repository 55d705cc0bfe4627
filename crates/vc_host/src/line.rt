//! The words of the command line.

ghost use Rattle.std.specs.Prelude.{◌≡◌, ◌⊎◌, IfErr};

use std::alloc::Global;
use std::rt::Env;
use std::{env, io};
use vc_top::Status;

/// The words behind the program's name.
///
/// # Errors
/// `Usage` where a word is not UTF-8, since such a word is in no grammar; `NoMemory` where a growth of memory was refused.
pub fn words(rt: &(impl Env + Alloc<A = Global>)) -> Result<Vec<String>, Status>
    ensures { IfErr result (λ status. (status ≡ Status.Usage) ⊎ (status ≡ Status.NoMemory)) }
{
    let mut words = Vec::new(rt.alloc());
    let args = match env::args(rt) {
        Ok(args) => args,
        Err(error) => {
            return Err(match error.kind() {
                io::ErrorKind::OutOfMemory => Status::NoMemory,
                _ => Status::Usage,
            });
        }
    };
    for word in args.skip(1) {
        if words.push(word).is_err() {
            return Err(Status::NoMemory);
        }
    }
    Ok(words)
}
