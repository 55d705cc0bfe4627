//! Claims: what a job takes along.

ghost use Rattle.std.specs.Prelude.{◌≡◌, ◌≢◌, None, Some};
ghost use Rattle.vc_model.specs.Runs.{JobData};
ghost use Rattle.vc_work.specs.Runs.{Fits};
ghost use Rattle.vc_context.specs.Works.{IsWork};
ghost use Rattle.vc_dec.specs.Works.{IsProbeOf, IsRunOver, CanProbe, CanDecode};
ghost use Rattle.vc_context.specs.Serving.{CanClaim, IsClaimed};

use crate::{Decoder, Dest, InJob};
use vc_base::{Format, Side};
use vc_context::jobs::{dest_of, source_of};
use vc_defs::Geometry;
use vc_queue::queue::Lent;
use vc_resync::Assembly;
use vc_work::{Rates, Reference, Sort, Work};

/// The rates of every run: those that the controls of an encoder begin with. A decoder does not look at them.
const RATES: Rates = Rates {
    gop: 10,
    iqp: 20,
    pqp: 20,
};

/// The work of a probe, which looks the bytes of the buffer through for a header.
fn probe_work(source: Lent, assembly: Option<Assembly>, format: Format, limit: u32) -> Work
    requires { CanProbe source assembly limit }
    ensures work { (j : JobData) → IsProbeOf j source assembly format limit → IsWork j result }
    ensures fits { Fits result }
{
    Work {
        sort: Sort::Probe,
        source: source_of(source),
        dest: None,
        reference: None,
        geometry: None,
        assembly,
        format,
        limit,
        rates: RATES,
    }
}

/// What a decode run takes out of the codec.
#[derive(Drop)]
struct Taken {
    reference: Option<Reference>,
    assembly: Option<Assembly>,
}

/// The work of a run that decodes bytes of one buffer into the other.
fn decode_work(
    source: Lent,
    dest: Lent,
    taken: Taken,
    geometry: Option<Geometry>,
    format: Format,
    limit: u32,
) -> Work
    requires { CanDecode source dest taken.reference taken.assembly geometry format limit }
    ensures work { (j : JobData) → IsRunOver j source dest taken.reference taken.assembly geometry format limit → IsWork j result }
    ensures fits { Fits result }
{
    let Taken {
        reference,
        assembly,
    } = taken;
    let source = source_of(source);
    Work {
        sort: Sort::Decode,
        source,
        dest: Some(dest_of(dest)),
        reference,
        geometry,
        assembly,
        format,
        limit,
        rates: RATES,
    }
}

impl Decoder {
    /// Takes the front buffer of OUTPUT, and what the codec keeps, into a job: a probe while the geometry is
    /// unknown, and then a run, which takes the front buffer of CAPTURE too.
    pub fn claim(&mut self) -> Work
        requires able { CanClaim self.old }
        ensures claimed { IsClaimed self.old self.new result }
    {
        match self.geometry {
            None => self.claim_probe(),
            Some(_) => self.claim_run(),
        }
    }

    /// Takes the front buffer of OUTPUT and the assembly into a probe.
    fn claim_probe(&mut self) -> Work
        requires able { CanClaim self.old }
        requires unknown { self.old.geometry ≡ None }
        ensures claimed { IsClaimed self.old self.new result }
    {
        let source = self.m2m.pair.lend(Side::Out);
        self.job = Some(InJob {
            source: source.index,
            dest: None,
        });
        let assembly = self.codec.lend_assembly();
        probe_work(
            source,
            assembly,
            self.m2m.formats.cap,
            self.m2m.formats.out.size,
        )
    }

    /// Takes the front buffers of both queues, the assembly and a reference into a decode run.
    fn claim_run(&mut self) -> Work
        requires able { CanClaim self.old }
        requires known { self.old.geometry ≢ None }
        ensures claimed { IsClaimed self.old self.new result }
    {
        let source = self.m2m.pair.lend(Side::Out);
        let dest = self.m2m.pair.lend(Side::Cap);
        let length = dest.payload.len();
        self.job = Some(InJob {
            source: source.index,
            dest: Some(Dest {
                index: dest.index,
                length,
            }),
        });
        let reference = self.codec.lend_reference(length);
        let assembly = self.codec.lend_assembly();
        let taken = Taken {
            reference,
            assembly,
        };
        let limit = self.m2m.formats.out.size;
        decode_work(
            source,
            dest,
            taken,
            self.geometry,
            self.m2m.formats.cap,
            limit,
        )
    }
}
