//! The raw format that options ask for.

ghost use Rattle.std.specs.Prelude.{◌≡◌, map, string_bytes, IfSome};
ghost use Rattle.vc_defs.specs.Laws.{IsRawFormat};
ghost use Rattle.vc_defs.specs.Raw.{yu12};
ghost use Rattle.vc_words.specs.Formats.{fourcc_word, fourcc_for, kept_format, sized_format, format_for};

use crate::options::{Name, NumberOption, number_for, value_for};
use vc_base::{Format, Fourcc, Kind, Side};
use vc_geom::{YU12, open_formats, try_format};

const WIDTH: NumberOption = NumberOption {
    name: Name::Width,
    least: 16,
    most: 4096,
    unnamed: 352,
};

const HEIGHT: NumberOption = NumberOption {
    name: Name::Height,
    least: 16,
    most: 2160,
    unnamed: 288,
};

/// A word of four bytes.
fn fourcc_word(word: &[u8]) -> Option<Fourcc>
    ensures { result ≡ fourcc_word word.now }
{
    match word {
        [a, b, c, d] => Some(Fourcc([*a, *b, *c, *d])),
        _ => None,
    }
}

/// The fourcc that the options name, and `YU12` where they name none.
fn fourcc_for(options: &[String]) -> Option<Fourcc>
    ensures { result ≡ fourcc_for (map (λ w. string_bytes w) options.now) }
{
    match value_for(options, Name::Format) {
        Some(word) => fourcc_word(word),
        None => Some(YU12),
    }
}

/// The raw format, where an encoder that is asked for it changes nothing.
fn kept_format(fourcc: Fourcc, width: u32, height: u32) -> Option<Format>
    ensures format { result ≡ kept_format fourcc width height }
    ensures raw { IfSome result IsRawFormat }
{
    let want = Format {
        fourcc,
        width,
        height,
        size: 0,
    };
    let got = try_format(Kind::Enc, Side::Out, &open_formats(Kind::Enc), &want).out;
    if got.fourcc == fourcc && got.width == width && got.height == height {
        Some(got)
    } else {
        None
    }
}

/// The raw format of a fourcc with the size that the options ask for.
fn sized_format(options: &[String], fourcc: Fourcc) -> Option<Format>
    ensures format { result ≡ sized_format fourcc (map (λ w. string_bytes w) options.now) }
    ensures raw { IfSome result IsRawFormat }
{
    let width = number_for(options, WIDTH)?;
    let height = number_for(options, HEIGHT)?;
    kept_format(fourcc, width, height)
}

/// The raw format that the options ask for.
pub(crate) fn format_for(options: &[String]) -> Option<Format>
    ensures format { result ≡ format_for (map (λ w. string_bytes w) options.now) }
    ensures raw { IfSome result IsRawFormat }
{
    let fourcc = fourcc_for(options)?;
    sized_format(options, fourcc)
}

/// The format `YU12` with the size that the options ask for.
pub(crate) fn yu12_for(options: &[String]) -> Option<Format>
    ensures format { result ≡ sized_format yu12 (map (λ w. string_bytes w) options.now) }
    ensures raw { IfSome result IsRawFormat }
{
    sized_format(options, YU12)
}
