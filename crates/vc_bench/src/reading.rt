//! What the words ask for.

ghost use Rattle.std.specs.Prelude.{◌<◌, length, IsSome};

use vc_engines::EngineKind;

/// Which way the codec alone goes.
#[derive(Clone, Copy, Debug, PartialEq, Eq)]
pub(crate) enum Way {
    Encode,
    Decode,
}

/// What is asked for.
#[derive(Clone, Copy, Debug, PartialEq, Eq)]
pub(crate) enum Asked {
    /// What the words behind the first one ask for, on engines of the kind.
    Command { kind: EngineKind },
    /// The codec alone, with the coder of blocks that engines of the kind have.
    Alone { kind: EngineKind, way: Way },
}

/// The kind of engines that a word names.
fn kind_of(word: &str) -> Option<EngineKind> {
    match word.as_bytes() {
        b"lane" => Some(EngineKind::Lane),
        b"plain" => Some(EngineKind::Plain),
        b"fast" => Some(EngineKind::Fast),
        _ => None,
    }
}

/// The way of the codec alone that the words ask for.
fn way_of(words: &[String]) -> Option<Way> {
    let [way] = words else {
        return None;
    };
    match way.as_bytes() {
        b"codec-encode" => Some(Way::Encode),
        b"codec-decode" => Some(Way::Decode),
        _ => None,
    }
}

/// Reads the words.
pub(crate) fn read_asked(words: &[String]) -> Option<Asked>
    ensures { IsSome result → 0 < length words.now }
{
    let [kind, behind @ ..] = words else {
        return None;
    };
    let kind = kind_of(kind.as_str())?;
    match way_of(behind) {
        Some(way) => Some(Asked::Alone { kind, way }),
        None => Some(Asked::Command { kind }),
    }
}
