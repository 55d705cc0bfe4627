//! Runs, by their sorts.

ghost use Rattle.std.specs.Prelude.{◌≡◌, ◌≤◌, ◌++◌, length, take, drop};
ghost use Rattle.vc_work.specs.declared.engine.Outcome.TheVariants.{Copied, Encoded};
ghost use Rattle.vc_work.specs.declared.work.Sort.TheVariants.{Copy, Encode, Probe, Decode};
ghost use Rattle.vc_work.specs.Runs.{Fits, IsRun, KeepsLengths};
ghost use Rattle.vc_engine.specs.Telling.{outcome_of};

use vc_coder::BlockCoder;
use vc_frame::encode_frame;
use vc_stream_run::{Decoded, decode_run, probe_run};
use vc_work::{Outcome, Sort, Work};

/// Copies so many bytes from the front of one to the front of the other.
fn copy_front(source: &[u8], dest: &mut [u8], count: usize)
    requires source_has { count ≤ length source.now }
    requires dest_has { count ≤ length dest.old }
    ensures { dest.new ≡ take count source.now ++ drop count dest.old }
{
    let front = &mut dest[..count];
    front.copy_from_slice(&source[..count]);
}

/// A copy run.
fn run_copy(work: &mut Work) -> u32
    requires fits { Fits work.old }
    requires sort { work.old.sort ≡ Copy }
    ensures run { IsRun work.old work.new (Copied result) }
    ensures lengths { KeepsLengths work.old work.new }
{
    let Some(dest) = &mut work.dest else {
        unreachable!()
    };
    let count = (work.source.used as usize).min(dest.len());
    copy_front(work.source.payload.as_slice(), dest.as_mut_slice(), count);
    count as u32
}

/// An encode run.
fn run_encode<C: BlockCoder>(coder: &C, work: &mut Work) -> (u32, bool)
    requires fits { Fits work.old }
    requires sort { work.old.sort ≡ Encode }
    ensures run { IsRun work.old work.new (Encoded result.0 result.1) }
    ensures lengths { KeepsLengths work.old work.new }
{
    let Some(dest) = &mut work.dest else {
        unreachable!()
    };
    let Some(reference) = &mut work.reference else {
        unreachable!()
    };
    let raw = &work.source.payload[..work.source.used as usize];
    let (used, key) = encode_frame(coder, raw, &work.format, &work.rates, reference, dest);
    (used as u32, key)
}

/// What a run over the bytes of a stream came to, as the outcome of its job.
fn outcome_of(decoded: Decoded) -> Outcome
    ensures { result ≡ outcome_of decoded }
{
    match decoded {
        Decoded::Picture { used, key, stamp } => Outcome::Picture { used, key, stamp },
        Decoded::Damaged { stamp } => Outcome::Damaged { stamp },
        Decoded::Changed { geometry } => Outcome::Changed { geometry },
        Decoded::Spent => Outcome::Spent,
    }
}

/// A probe.
fn run_probe(work: &mut Work) -> Outcome
    requires fits { Fits work.old }
    requires sort { work.old.sort ≡ Probe }
    ensures run { IsRun work.old work.new result }
    ensures lengths { KeepsLengths work.old work.new }
{
    let Some(assembly) = &mut work.assembly else {
        unreachable!()
    };
    let source = &mut work.source;
    let fresh = &source.payload[source.cursor as usize..source.used as usize];
    let (count, decoded) = probe_run(assembly, fresh, source.stamp);
    source.cursor += count as u32;
    outcome_of(decoded)
}

/// A decode run.
fn run_decode<C: BlockCoder>(coder: &C, work: &mut Work) -> Outcome
    requires fits { Fits work.old }
    requires sort { work.old.sort ≡ Decode }
    ensures run { IsRun work.old work.new result }
    ensures lengths { KeepsLengths work.old work.new }
{
    let Some(dest) = &mut work.dest else {
        unreachable!()
    };
    let Some(reference) = &mut work.reference else {
        unreachable!()
    };
    let Some(assembly) = &mut work.assembly else {
        unreachable!()
    };
    let Some(geometry) = &work.geometry else {
        unreachable!()
    };
    let source = &mut work.source;
    let fresh = &source.payload[source.cursor as usize..source.used as usize];
    let (count, decoded) = decode_run(
        coder,
        assembly,
        reference,
        geometry,
        fresh,
        source.stamp,
        &work.format,
        dest,
    );
    source.cursor += count as u32;
    outcome_of(decoded)
}

/// Does the run with a transform.
pub(crate) fn run_with<C: BlockCoder>(coder: &C, work: &mut Work) -> Outcome
    requires fits { Fits work.old }
    ensures run { IsRun work.old work.new result }
    ensures lengths { KeepsLengths work.old work.new }
{
    match work.sort {
        Sort::Copy => {
            let used = run_copy(work);
            Outcome::Copied { used }
        },
        Sort::Encode => {
            let (used, key) = run_encode(coder, work);
            Outcome::Encoded { used, key }
        },
        Sort::Probe => run_probe(work),
        Sort::Decode => run_decode(coder, work),
    }
}
