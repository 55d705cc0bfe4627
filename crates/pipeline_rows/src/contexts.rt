//! Pictures of the generator through the contexts of `share`.

use crate::alone::code_all;
use crate::commands::{Engines, run};
use std::alloc::Global;
use std::test::Fail;
use vc_top::Status;

/// How many contexts there are where none are asked for.
const CONTEXTS: u32 = 8;

/// How many pictures each codes.
const PICTURES: u32 = 10;

/// Room for the lines.
const ROOM: usize = 4_096;

/// The fold of bytes.
fn fold(bytes: &[u8]) -> u32 {
    bytes.iter().fold(0u32, |fold, byte| {
        ((31 * u64::from(fold) + u64::from(*byte)) % 4_294_967_296) as u32
    })
}

/// The lines of all contexts, found by coding the pictures of one after another: the context, its pictures, the bytes of
/// its frames, and their fold.
fn lines_alone(alloc: Global) -> Result<Vec<u8>, Fail> {
    let mut lines = Vec::new(alloc);
    for context in 0..CONTEXTS {
        let frames = code_all(alloc, PICTURES, context)?.frames;
        let bytes = frames.len();
        let fold = fold(&frames);
        let line = format!(in alloc; "{context} {PICTURES} {bytes} {fold}\n")?;
        lines.extend_from_slice(line.as_bytes())?;
    }
    Ok(lines)
}

/// Lines that ask for these contexts, which are those that there are without options.
const SHARED: [&[&str]; 2] = [&["share"], &["share", "--contexts", "8", "--workers", "4"]];

#[test]
fn contexts_code_as_one_after_another(rt: HostRuntime) -> Result<(), Fail> {
    let alloc = rt.alloc();
    let wanted = lines_alone(alloc)?;
    for line in SHARED {
        let (status, lines) = run(&rt, alloc, line, Engines::InTurn, Vec::new(alloc), ROOM)?;
        assert_eq!(rt; status, Status::Fine);
        assert_eq!(rt; lines.as_slice(), wanted.as_slice());
    }
    Ok(())
}
