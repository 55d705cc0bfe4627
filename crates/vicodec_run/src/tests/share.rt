//! Pictures of the generator through many encoders at once.

use crate::tests::outside::{Outside, SOUND, run_with};
use crate::tests::run_between;
use std::alloc::Global;
use std::sync::Wait;
use std::test::Fail;
use std::thread::Threads;
use vc_base::NoMemory;
use vc_io::{MemSink, MemSource};
use vc_top::Status;

/// How a command line ended by plain engines, and what it wrote, with room for all pictures of these tests.
fn written<R: Threads + Wait + Sync>(
    rt: &R,
    alloc: Global,
    line: &[&str],
    input: Vec<u8>,
) -> Result<(Status, Vec<u8>), NoMemory> {
    let mut source = MemSource::make(input, 4096, Vec::new(alloc));
    let mut sink = MemSink::make(alloc, 65_536, 4096, Vec::new(alloc))?;
    let status = run_between(rt, alloc, line, &mut source, &mut sink, None)?;
    Ok((status, sink.into_bytes()))
}

/// The fold of bytes.
fn fold(bytes: &[u8]) -> u32 {
    bytes.iter().fold(0u32, |fold, byte| {
        ((31 * u64::from(fold) + u64::from(*byte)) % 4_294_967_296) as u32
    })
}

/// The lines of contexts that code so many pictures of 32 by 16 samples for these numbers, found by coding the pictures
/// of one context after another.
pub(crate) fn lines_alone<R: Threads + Wait + Sync>(
    rt: &R,
    alloc: Global,
    pictures: &str,
    numbers: &[&str],
) -> Result<Vec<u8>, Fail> {
    let mut lines = Vec::new(alloc);
    let encode: &[&str] = &[
        "encode",
        "--width",
        "32",
        "--height",
        "16",
        "--workers",
        "1",
    ];
    for (context, number) in numbers.iter().enumerate() {
        let make: &[&str] = &[
            "make",
            "--width",
            "32",
            "--height",
            "16",
            "--pictures",
            pictures,
            "--number",
            number,
        ];
        let (_, raw) = written(rt, alloc, make, Vec::new(alloc))?;
        let (_, frames) = written(rt, alloc, encode, raw)?;
        let bytes = frames.len();
        let fold = fold(&frames);
        let line = format!(in alloc; "{context} {pictures} {bytes} {fold}\n")?;
        lines.extend_from_slice(line.as_bytes())?;
    }
    Ok(lines)
}

/// How many contexts there are, how many pictures each codes, how many workers run jobs, the first number, and all
/// numbers: the first row has more pictures than lie between two I frames.
const SHARED: [(&str, &str, &str, &str, &[&str]); 3] = [
    (
        "8",
        "12",
        "4",
        "5",
        &["5", "6", "7", "8", "9", "10", "11", "12"],
    ),
    ("1", "1", "1", "0", &["0"]),
    ("3", "2", "16", "0", &["0", "1", "2"]),
];

#[test]
fn contexts_code_as_if_alone(rt: HostRuntime) -> Result<(), Fail> {
    for (contexts, pictures, workers, first, numbers) in SHARED {
        let line: &[&str] = &[
            "share",
            "--contexts",
            contexts,
            "--pictures",
            pictures,
            "--width",
            "32",
            "--height",
            "16",
            "--number",
            first,
            "--workers",
            workers,
        ];
        let (status, text) = written(&rt, rt.alloc(), line, Vec::new(rt.alloc()))?;
        let wanted = lines_alone(&rt, rt.alloc(), pictures, numbers)?;
        assert_eq!(rt; text.as_slice(), wanted.as_slice());
        assert_eq!(rt; status, Status::Fine);
    }
    Ok(())
}

/// One picture in each of two contexts, by one worker.
const TWO: &[&str] = &[
    "share",
    "--contexts",
    "2",
    "--pictures",
    "1",
    "--width",
    "32",
    "--height",
    "16",
    "--workers",
    "1",
];

/// Lines, what fails, how they end, and whether all is printed or nothing.
const ENDS: [(&[&str], Outside, Status, bool); 8] = [
    (
        TWO,
        Outside {
            failing_read: Some(0),
            ..SOUND
        },
        Status::Fine,
        true,
    ),
    (
        TWO,
        Outside {
            failing_run: Some(0),
            ..SOUND
        },
        Status::EngineFault,
        false,
    ),
    (
        TWO,
        Outside {
            failing_write: Some(0),
            ..SOUND
        },
        Status::WriteFault,
        false,
    ),
    (&["share", "--contexts", "0"], SOUND, Status::Usage, false),
    (&["share", "--contexts", "65"], SOUND, Status::Usage, false),
    (
        &["share", "--pictures", "1001"],
        SOUND,
        Status::Usage,
        false,
    ),
    (&["share", "--format", "YU12"], SOUND, Status::Usage, false),
    (&["share", "--width", "17"], SOUND, Status::Usage, false),
];

#[test]
fn sharing_reads_nothing_and_may_fail(rt: HostRuntime) -> Result<(), Fail> {
    let all = lines_alone(&rt, rt.alloc(), "1", &["0", "1"])?;
    for (line, outside, status, is_whole) in ENDS {
        let (ended, text) = run_with(&rt, rt.alloc(), line, Vec::new(rt.alloc()), &outside)?;
        let wanted: &[u8] = if is_whole { all.as_slice() } else { &[] };
        assert_eq!(rt; text.as_slice(), wanted);
        assert_eq!(rt; ended, status);
    }
    Ok(())
}
