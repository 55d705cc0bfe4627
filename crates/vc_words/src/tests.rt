use crate::{Command, MakeOptions, ScriptOptions, read_words};
use std::alloc::Global;
use std::test::Fail;
use vc_base::{Format, Fourcc};

/// The words of a line, which stand apart by one blank.
fn words(alloc: Global, line: &str) -> Result<Vec<String>, Fail> {
    let mut words = Vec::new(alloc);
    for word in line.split(' ') {
        words.push(String::from_str(alloc, word)?)?;
    }
    Ok(words)
}

/// Lines outside the grammar.
const USAGE: [&str; 34] = [
    "",
    "play",
    "Script",
    "--help",
    "--version",
    "script --slots 0",
    "script --slots 1025",
    "script --slots=4",
    "script --",
    "script -- --slots",
    "script --slots",
    "script --slots 4 --slots 4",
    "script --slots 4 5",
    "script --slots +1",
    "script --slots 1_0",
    "script --slots 00000000016",
    "script --slots -1",
    "script --workers 4",
    "script 4",
    "encode --slots 4",
    "encode --gop 0",
    "encode --gop 17",
    "encode --iqp 32",
    "encode --pqp 0",
    "encode --workers 17",
    "decode --gop 10",
    "make --width 17",
    "make --height 17 --format NV12",
    "make --width 17 --format YUYV",
    "make --format FWHT",
    "make --format GREYS",
    "make --width 15 --format GREY",
    "make --pictures 1000001",
    "share --format YU12",
];

/// Lines of the grammar.
const ASKED: [&str; 16] = [
    "script --slots 1024",
    "script --slots 0000000001",
    "encode",
    "encode --workers 16 --pqp 31 --iqp 1 --gop 16 --height 2160 --width 4096 --format YUYV",
    "decode",
    "decode --workers 1",
    "make --width 17 --format GREY",
    "make --format GREY --width 17",
    "make --height 17 --format YUYV",
    "make --format NV12 --height 16 --width 16",
    "make --pictures 1000000 --number 1000000",
    "share",
    "share --contexts 64 --pictures 1000 --width 16 --height 16 --number 0 --workers 1",
    "transcode --gop 1 --iqp 31",
    "audit --slots 1",
    "wire",
];

#[test]
fn lines_are_in_the_grammar_or_not(rt: HostRuntime) -> Result<(), Fail> {
    for line in USAGE {
        assert_eq!(rt; read_words(&words(rt.alloc(), line)?), None, "{line}");
    }
    for line in ASKED {
        assert!(rt; read_words(&words(rt.alloc(), line)?).is_some(), "{line}");
    }
    assert_eq!(rt; read_words(&Vec::new(rt.alloc())), None);
    Ok(())
}

/// A raw format by its four values.
fn format(name: &[u8; 4], width: u32, height: u32, size: u32) -> Format {
    Format {
        fourcc: Fourcc(*name),
        width,
        height,
        size,
    }
}

#[test]
fn options_have_their_values(rt: HostRuntime) -> Result<(), Fail> {
    let rows = [
        ("script", Command::Script(ScriptOptions { slots: 16 })),
        (
            "script --slots 0000000007",
            Command::Script(ScriptOptions { slots: 7 }),
        ),
        (
            "make",
            Command::Make(MakeOptions {
                format: format(b"YU12", 352, 288, 152_064),
                pictures: 1,
                number: 0,
            }),
        ),
        (
            "make --number 5 --height 18 --pictures 3 --format YUYV --width 20",
            Command::Make(MakeOptions {
                format: format(b"YUYV", 20, 18, 720),
                pictures: 3,
                number: 5,
            }),
        ),
    ];
    for (line, command) in rows {
        assert_eq!(rt;
            read_words(&words(rt.alloc(), line)?),
            Some(command),
            "{line}"
        );
    }
    Ok(())
}
