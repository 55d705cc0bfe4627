//! What the words ask for.

use crate::reading::{Asked, Way, read_asked};
use std::test::Fail;
use vc_engines::EngineKind;

/// Words, and what they ask for.
const TABLE: [(&[&str], Option<Asked>); 6] = [
    (&[], None),
    (&["quick", "encode"], None),
    (
        &["lane", "codec-encode"],
        Some(Asked::Alone {
            kind: EngineKind::Lane,
            way: Way::Encode,
        }),
    ),
    (
        &["plain", "codec-decode"],
        Some(Asked::Alone {
            kind: EngineKind::Plain,
            way: Way::Decode,
        }),
    ),
    (
        &["fast", "encode", "--workers", "1"],
        Some(Asked::Command {
            kind: EngineKind::Fast,
        }),
    ),
    (
        &["lane", "codec-decode", "more"],
        Some(Asked::Command {
            kind: EngineKind::Lane,
        }),
    ),
];

#[test]
fn words_ask_for_what_the_table_says(rt: HostRuntime) -> Result<(), Fail> {
    for (line, asked) in TABLE {
        let mut words = Vec::new(rt.alloc());
        for word in line {
            words.push(String::from_str(rt.alloc(), word)?)?;
        }
        assert_eq!(rt; read_asked(&words), asked);
    }
    Ok(())
}
