//! Reads the words of the command line.

ghost use Rattle.std.specs.Prelude.{◌≡◌, ◌∷◌, [], map, string_bytes, IfSome};
ghost use Rattle.vc_words.specs.Commands.{rates_for, script_options, encode_options, decode_options, make_options, share_options, transcode_options, audit_options, wire_options, command_of};
ghost use Rattle.vc_words.specs.Ranges.{AreRates, IsScript, IsEncode, IsDecode, IsMake, IsShare, IsTranscode, IsAudit, IsWire, IsInRange};

use crate::command::{
    AuditOptions, Command, DecodeOptions, EncodeOptions, MakeOptions, RateOptions, ScriptOptions,
    ShareOptions, TranscodeOptions, WireOptions,
};
use crate::formats::{format_for, yu12_for};
use crate::options::{Name, NumberOption, are_options, number_for};
use vc_base::limits::{MOST_GOP, MOST_QUANTISER, MOST_SLOTS, SCRIPT_WORKERS};

const SLOTS: NumberOption = NumberOption {
    name: Name::Slots,
    least: 1,
    most: MOST_SLOTS,
    unnamed: 16,
};

const GOP: NumberOption = NumberOption {
    name: Name::Gop,
    least: 1,
    most: MOST_GOP,
    unnamed: 10,
};

const IQP: NumberOption = NumberOption {
    name: Name::Iqp,
    least: 1,
    most: MOST_QUANTISER,
    unnamed: 20,
};

const PQP: NumberOption = NumberOption {
    name: Name::Pqp,
    least: 1,
    most: MOST_QUANTISER,
    unnamed: 20,
};

const WORKERS: NumberOption = NumberOption {
    name: Name::Workers,
    least: 1,
    most: SCRIPT_WORKERS,
    unnamed: 4,
};

const MADE_PICTURES: NumberOption = NumberOption {
    name: Name::Pictures,
    least: 1,
    most: 1_000_000,
    unnamed: 1,
};

const SHARED_PICTURES: NumberOption = NumberOption {
    name: Name::Pictures,
    least: 1,
    most: 1000,
    unnamed: 10,
};

const NUMBER: NumberOption = NumberOption {
    name: Name::Number,
    least: 0,
    most: 1_000_000,
    unnamed: 0,
};

const CONTEXTS: NumberOption = NumberOption {
    name: Name::Contexts,
    least: 1,
    most: 64,
    unnamed: 8,
};

fn rates_for(options: &[String]) -> Option<RateOptions>
    ensures rates { result ≡ rates_for (map (λ w. string_bytes w) options.now) }
    ensures range { IfSome result AreRates }
{
    let gop = number_for(options, GOP)?;
    let iqp = number_for(options, IQP)?;
    let pqp = number_for(options, PQP)?;
    Some(RateOptions { gop, iqp, pqp })
}

fn script_options(options: &[String]) -> Option<ScriptOptions>
    ensures options { result ≡ script_options (map (λ w. string_bytes w) options.now) }
    ensures range { IfSome result IsScript }
{
    if !are_options(options, &[Name::Slots]) {
        return None;
    }
    let slots = number_for(options, SLOTS)?;
    Some(ScriptOptions { slots })
}

fn encode_options(options: &[String]) -> Option<EncodeOptions>
    ensures options { result ≡ encode_options (map (λ w. string_bytes w) options.now) }
    ensures range { IfSome result IsEncode }
{
    let names = [
        Name::Format,
        Name::Width,
        Name::Height,
        Name::Gop,
        Name::Iqp,
        Name::Pqp,
        Name::Workers,
    ];
    if !are_options(options, &names) {
        return None;
    }
    let format = format_for(options)?;
    let rates = rates_for(options)?;
    let workers = number_for(options, WORKERS)?;
    Some(EncodeOptions {
        format,
        rates,
        workers,
    })
}

fn decode_options(options: &[String]) -> Option<DecodeOptions>
    ensures options { result ≡ decode_options (map (λ w. string_bytes w) options.now) }
    ensures range { IfSome result IsDecode }
{
    if !are_options(options, &[Name::Workers]) {
        return None;
    }
    let workers = number_for(options, WORKERS)?;
    Some(DecodeOptions { workers })
}

fn make_options(options: &[String]) -> Option<MakeOptions>
    ensures options { result ≡ make_options (map (λ w. string_bytes w) options.now) }
    ensures range { IfSome result IsMake }
{
    let names = [
        Name::Format,
        Name::Width,
        Name::Height,
        Name::Pictures,
        Name::Number,
    ];
    if !are_options(options, &names) {
        return None;
    }
    let format = format_for(options)?;
    let pictures = number_for(options, MADE_PICTURES)?;
    let number = number_for(options, NUMBER)?;
    Some(MakeOptions {
        format,
        pictures,
        number,
    })
}

fn share_options(options: &[String]) -> Option<ShareOptions>
    ensures options { result ≡ share_options (map (λ w. string_bytes w) options.now) }
    ensures range { IfSome result IsShare }
{
    let names = [
        Name::Contexts,
        Name::Pictures,
        Name::Width,
        Name::Height,
        Name::Number,
        Name::Workers,
    ];
    if !are_options(options, &names) {
        return None;
    }
    let contexts = number_for(options, CONTEXTS)?;
    let format = yu12_for(options)?;
    let pictures = number_for(options, SHARED_PICTURES)?;
    let number = number_for(options, NUMBER)?;
    let workers = number_for(options, WORKERS)?;
    Some(ShareOptions {
        contexts,
        format,
        pictures,
        number,
        workers,
    })
}

fn transcode_options(options: &[String]) -> Option<TranscodeOptions>
    ensures options { result ≡ transcode_options (map (λ w. string_bytes w) options.now) }
    ensures range { IfSome result IsTranscode }
{
    if !are_options(options, &[Name::Gop, Name::Iqp, Name::Pqp, Name::Workers]) {
        return None;
    }
    let rates = rates_for(options)?;
    let workers = number_for(options, WORKERS)?;
    Some(TranscodeOptions { rates, workers })
}

fn audit_options(options: &[String]) -> Option<AuditOptions>
    ensures options { result ≡ audit_options (map (λ w. string_bytes w) options.now) }
    ensures range { IfSome result IsAudit }
{
    if !are_options(options, &[Name::Slots]) {
        return None;
    }
    let slots = number_for(options, SLOTS)?;
    Some(AuditOptions { slots })
}

fn wire_options(options: &[String]) -> Option<WireOptions>
    ensures options { result ≡ wire_options (map (λ w. string_bytes w) options.now) }
    ensures range { IfSome result IsWire }
{
    if !are_options(options, &[Name::Slots]) {
        return None;
    }
    let slots = number_for(options, SLOTS)?;
    Some(WireOptions { slots })
}

/// What the words behind the program's name ask for, None exactly where they are not in the grammar of
/// docs/FORMAT.md, "Words". What an option may be given, and what counts where it is not named, stands there.
#[tactic(auto, unfolding(crate::specs::Commands::command_of))]
pub fn read_words(words: &[String]) -> Option<Command>
    ensures meaning { result ≡ command_of (map (λ w. string_bytes w) words.now) }
    ensures range { IfSome result IsInRange }
{
    let [command, options @ ..] = words else {
        return None;
    };
    match command.as_str() {
        "script" => Some(Command::Script(script_options(options)?)),
        "encode" => Some(Command::Encode(encode_options(options)?)),
        "decode" => Some(Command::Decode(decode_options(options)?)),
        "make" => Some(Command::Make(make_options(options)?)),
        "share" => Some(Command::Share(share_options(options)?)),
        "transcode" => Some(Command::Transcode(transcode_options(options)?)),
        "audit" => Some(Command::Audit(audit_options(options)?)),
        "wire" => Some(Command::Wire(wire_options(options)?)),
        _ => None,
    }
}
