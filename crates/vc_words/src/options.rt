//! Pairs of a name and a value, and what a name is given there.

ghost use Rattle.std.specs.Prelude.{◌≡◌, ◌≤◌, ◌<◌, map, string_bytes, bytes_eq, IfSome, None, option_map};
ghost use Rattle.std.specs.List.{list_any};
ghost use Rattle.vc_words.specs.Options.{name_text, is_known, value_of, is_single, are_options, number_between, number_for};

use vc_script::number;

/// The most digits of a number.
const MAX_DIGITS: usize = 10;

/// The names of options.
#[derive(Clone, Copy, Debug)]
pub(crate) enum Name {
    Slots,
    Format,
    Width,
    Height,
    Gop,
    Iqp,
    Pqp,
    Workers,
    Pictures,
    Number,
    Contexts,
}

impl Name {
    /// The word of the command line.
    pub(crate) fn text(self) -> &'static str
        ensures { result.now ≡ name_text self }
    {
        match self {
            Name::Slots => "--slots",
            Name::Format => "--format",
            Name::Width => "--width",
            Name::Height => "--height",
            Name::Gop => "--gop",
            Name::Iqp => "--iqp",
            Name::Pqp => "--pqp",
            Name::Workers => "--workers",
            Name::Pictures => "--pictures",
            Name::Number => "--number",
            Name::Contexts => "--contexts",
        }
    }
}

/// An option whose value is a number.
#[derive(Clone, Copy, Debug)]
pub(crate) struct NumberOption {
    pub(crate) name: Name,
    pub(crate) least: u32,
    pub(crate) most: u32,
    /// What counts where the option is not named.
    pub(crate) unnamed: u32,
}

/// Whether the word is one of the names.
fn is_known(names: &[Name], word: &[u8]) -> bool
    ensures { result ≡ is_known names.now word.now }
{
    names.iter().any(|name| name.text().as_bytes() == word)
}

/// The value of the first pair with the name.
fn value<'a>(options: &'a [String], name: &[u8]) -> Option<&'a [u8]>
    ensures { option_map (λ v. v.now) result ≡ value_of name.now (map (λ w. string_bytes w) options.now) }
{
    let mut rest = options;
    while let [word, value, after @ ..] = rest {
        if word.as_bytes() == name {
            return Some(value.as_bytes());
        }
        rest = after;
    }
    None
}

/// Whether the word is one of the names and none of the options behind it.
fn is_single(names: &[Name], word: &[u8], after: &[String]) -> bool
    ensures { result ≡ is_single names.now word.now (map (λ w. string_bytes w) after.now) }
{
    is_known(names, word) && value(after, word).is_none()
}

/// Whether the words are pairs of a name and a value, with these names alone and none of them twice.
pub(crate) fn are_options(options: &[String], names: &[Name]) -> bool
    ensures { result ≡ are_options names.now (map (λ w. string_bytes w) options.now) }
{
    let mut rest = options;
    while let [word, _, after @ ..] = rest {
        if !is_single(names, word.as_bytes(), after) {
            return false;
        }
        rest = after;
    }
    rest.is_empty()
}

/// The value that a name is given.
pub(crate) fn value_for(options: &[String], name: Name) -> Option<&[u8]>
    ensures { option_map (λ v. v.now) result ≡ value_of (name_text name) (map (λ w. string_bytes w) options.now) }
{
    value(options, name.text().as_bytes())
}

/// A number of at most 10 digits that lies in the range.
fn number_between(word: &[u8], least: u32, most: u32) -> Option<u32>
    ensures value { result ≡ number_between least most word.now }
    ensures least { IfSome result (λ n. least ≤ n) }
    ensures most { IfSome result (λ n. n ≤ most) }
{
    if word.len() > MAX_DIGITS {
        return None;
    }
    match number(word, u64::from(most)) {
        Some(n) if n >= u64::from(least) => Some(n as u32),
        _ => None,
    }
}

/// The number that an option is given, and what counts where it is not named.
pub(crate) fn number_for(options: &[String], option: NumberOption) -> Option<u32>
    requires least { option.least ≤ option.unnamed }
    requires most { option.unnamed ≤ option.most }
    ensures value { result ≡ number_for option (map (λ w. string_bytes w) options.now) }
    ensures least { IfSome result (λ n. option.least ≤ n) }
    ensures most { IfSome result (λ n. n ≤ option.most) }
{
    match value_for(options, option.name) {
        Some(word) => number_between(word, option.least, option.most),
        None => Some(option.unnamed),
    }
}
