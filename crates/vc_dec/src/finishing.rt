//! The end of a job.

ghost use Rattle.std.specs.Prelude.{◌≡◌, ◌≢◌, ◌<◌, ◌^◌, [], take, None, Some, true, if◌then◌else◌};
ghost use Rattle.std.specs.Option.{option_map};
ghost use Rattle.vc_base.specs.Limits.{error_flag, source_change_event};
ghost use Rattle.vc_base.specs.Events.{raise_after};
ghost use Rattle.vc_defs.specs.Decoder.{fresh_decoder};
ghost use Rattle.vc_model.specs.Context.{run};
ghost use Rattle.vc_model.specs.Runs.{type_flag};
ghost use Rattle.vc_geom.specs.Pairs.{pair_of, CanStand};
ghost use Rattle.vc_base.specs.declared.Kind.TheVariants.{Dec};
ghost use Rattle.vc_queue.specs.Holds.{HoldState};
ghost use Rattle.vc_queue.specs.Lending.{IsBack};
ghost use Rattle.vc_pair.specs.Pairs.{cap_retired, is_final, IsIdle, FitsBoth, pair_settled, pair_changed};
ghost use Rattle.vc_m2m.specs.Settling.{end_raised};
ghost use Rattle.vc_dec.specs.Ends.{end_of, source_put, dest_put, IsDestBack, dest_ended, events_ended, IsLentDest, formats_behind, IsLegalChange};
ghost use Rattle.vc_context.specs.Serving.{CanFinish, IsFinished};

use crate::codec::Codec;
use crate::{Decoder, Dest};
use bitflags::Flags;
use vc_base::flags::BufFlags;
use vc_base::limits::{RESOLUTION_CHANGE, SOURCE_CHANGE_EVENT};
use vc_base::{Side, Stamp};
use vc_context::jobs::{dest_back, source_back};
use vc_defs::Geometry;
use vc_event::Events;
use vc_geom::{Formats, formats_found};
use vc_m2m::settling::{raise_end, settle};
use vc_pair::Pair;
use vc_queue::queue::Lent;
use vc_work::{EngineFault, Outcome, Work};

/// What the destination of a run has at its front.
#[derive(Clone, Copy, Debug, PartialEq, Eq)]
struct Shown {
    /// How many bytes are used.
    used: u32,
    flags: u32,
    stamp: Stamp,
}

/// What a run that came to its end, or was given up, leaves of its buffers.
#[derive(Clone, Copy, Debug, PartialEq, Eq)]
struct RunEnd {
    /// Whether the source goes to done. Else it is given back.
    used_up: bool,
    source_flags: u32,
    /// What goes to done with the destination. Without it the destination is given back.
    shown: Option<Shown>,
    /// The new geometry, where the stream changed.
    changed: Option<Geometry>,
    /// Whether the engine gave up.
    fault: bool,
}

/// The flag of a picture.
fn type_flag(key: bool) -> u32
    ensures { result ≡ type_flag key }
{
    let flag = if key {
        BufFlags::KEYFRAME
    } else {
        BufFlags::PFRAME
    };
    flag.bits()
}

/// What a destination has that comes back without its picture.
fn no_picture(stamp: Stamp) -> Shown
    ensures { result ≡ record { used = 0; flags = error_flag; stamp = stamp } }
{
    Shown {
        used: 0,
        flags: BufFlags::ERROR.bits(),
        stamp,
    }
}

/// What is left of the buffers where the engine gave up: both come back with ERROR and the source's stamp.
fn given_up(queued: Stamp) -> RunEnd
    ensures { result ≡ record { used_up = true; source_flags = error_flag; shown = Some (record { used = 0; flags = error_flag; stamp = queued }); changed = None; fault = true } }
{
    RunEnd {
        used_up: true,
        source_flags: BufFlags::ERROR.bits(),
        shown: Some(no_picture(queued)),
        changed: None,
        fault: true,
    }
}

/// What is left of the buffers after a run, whose source is used up or not and was queued with the stamp.
fn end_of(outcome: &Result<Outcome, EngineFault>, used_up: bool, queued: Stamp) -> RunEnd
    ensures { result ≡ end_of outcome.now used_up queued }
{
    let done = RunEnd {
        used_up,
        source_flags: 0,
        shown: None,
        changed: None,
        fault: false,
    };
    match *outcome {
        Ok(Outcome::Picture { used, key, stamp }) => RunEnd {
            shown: Some(Shown {
                used,
                flags: type_flag(key),
                stamp,
            }),
            ..done
        },
        Ok(Outcome::Damaged { stamp }) => RunEnd {
            shown: Some(no_picture(stamp)),
            ..done
        },
        Ok(Outcome::Changed { geometry }) => RunEnd {
            used_up: false,
            changed: Some(geometry),
            ..done
        },
        Ok(Outcome::Spent) => RunEnd {
            used_up: true,
            ..done
        },
        _ => given_up(queued),
    }
}

/// The destination of a job on its way back to its queue, where the job has one.
fn lent_back(dest: Option<Dest>, payload: Option<Vec<u8>>) -> Option<Lent>
    ensures { IsLentDest dest (option_map (λ v. v.items) payload) result }
{
    match (dest, payload) {
        (Some(dest), Some(payload)) => Some(dest_back(dest.index, payload)),
        _ => None,
    }
}

/// Puts the source to done where it is used up, and else back to the front of ready.
fn put_source(pair: &mut Pair, source: Lent, used_up: bool, flags: u32)
    requires one { pair.old.out.job ≢ [] }
    requires whole { IsBack pair.old.out.job source }
    requires counts { pair.old.out.next_seq < 2 ^ 62 }
    ensures queues { pair.new ≡ source_put pair.old source used_up flags }
    ensures fit { (hold : HoldState) → FitsBoth pair.old hold → FitsBoth pair.new hold }
{
    if used_up {
        pair.retire_out(source, flags);
    } else {
        pair.give_back(Side::Out, source);
    }
}

/// Puts the destination, where there is one, back to the front of ready.
fn put_dest(pair: &mut Pair, dest: Option<Lent>)
    requires { IsDestBack pair.old dest }
    ensures queues { pair.new ≡ dest_put pair.old dest }
    ensures fit { (hold : HoldState) → FitsBoth pair.old hold → FitsBoth pair.new hold }
{
    if let Some(dest) = dest {
        pair.give_back(Side::Cap, dest);
    }
}

/// Stops CAPTURE at a change, where it streams, and tells the change by an event. No event tells the LAST buffer that
/// settling may give then.
fn stop_by_change(pair: &mut Pair, events: &mut Events)
    requires idle { IsIdle pair.old }
    requires counts { pair.old.cap.next_seq < 2 ^ 62 }
    requires raised { events.old.next_seq < 2 ^ 62 }
    ensures queues { pair.new ≡ pair_settled (pair_changed pair.old) }
    ensures told { events.new ≡ raise_after events.old source_change_event 1 }
    ensures fit { (hold : HoldState) → FitsBoth pair.old hold → FitsBoth pair.new hold }
{
    pair.change();
    pair.settle();
    events.raise(SOURCE_CHANGE_EVENT, RESOLUTION_CHANGE);
}

/// Puts a destination that shows something to done. At the end of a drain it has LAST, and the end is told by an
/// event.
fn show(pair: &mut Pair, events: &mut Events, dest: Lent, shown: Shown)
    requires whole { IsBack pair.old.cap.job dest }
    requires source { pair.old.out.job ≡ [] }
    requires counts { pair.old.cap.next_seq < 2 ^ 62 }
    requires raised { events.old.next_seq < 2 ^ 62 }
    ensures queues { pair.new ≡ cap_retired pair.old shown.used (take shown.used dest.payload.items) shown.flags shown.stamp }
    ensures told { events.new ≡ end_raised (is_final pair.old) events.old }
    ensures fit { (hold : HoldState) → FitsBoth pair.old hold → FitsBoth pair.new hold }
{
    let ended = pair.retire_cap(dest, shown.used, shown.flags, shown.stamp);
    raise_end(ended, events);
}

/// Gives back what has no result, stops where the stream changed, and settles what that left.
fn hand_back(pair: &mut Pair, events: &mut Events, dest: Option<Lent>, changed: Option<Geometry>)
    requires dest { IsDestBack pair.old dest }
    requires source { pair.old.out.job ≡ [] }
    requires running { pair.old.phase ≡ run }
    requires counts { pair.old.cap.next_seq < 2 ^ 62 }
    requires raised { events.old.next_seq < 2 ^ 62 }
    ensures queues { pair.new ≡ dest_ended pair.old None dest changed }
    ensures told { events.new ≡ events_ended pair.old events.old None dest changed }
    ensures fit { (hold : HoldState) → FitsBoth pair.old hold → FitsBoth pair.new hold }
{
    put_dest(pair, dest);
    match changed {
        Some(_) => stop_by_change(pair, events),
        None => settle(pair, events),
    }
}

/// Ends the destination of a run: it goes to done where the run showed something in it, and else back.
fn end_dest(pair: &mut Pair, events: &mut Events, dest: Option<Lent>, end: &RunEnd)
    requires dest { IsDestBack pair.old dest }
    requires source { pair.old.out.job ≡ [] }
    requires running { pair.old.phase ≡ run }
    requires counts { pair.old.cap.next_seq < 2 ^ 62 }
    requires raised { events.old.next_seq < 2 ^ 62 }
    ensures queues { pair.new ≡ dest_ended pair.old end.now.shown dest end.now.changed }
    ensures told { events.new ≡ events_ended pair.old events.old end.now.shown dest end.now.changed }
    ensures fit { (hold : HoldState) → FitsBoth pair.old hold → FitsBoth pair.new hold }
{
    match (end.shown, dest) {
        (Some(shown), Some(dest)) => show(pair, events, dest, shown),
        (_, dest) => hand_back(pair, events, dest, end.changed),
    }
}

/// Lets the codec begin anew where the engine gave up.
fn begin_anew_where(fault: bool, codec: &mut Codec)
    ensures { codec.new ≡ (if fault then record codec.old { state = fresh_decoder } else codec.old) }
{
    if fault {
        codec.reset();
    }
}

/// The formats after a change, or as they are.
fn formats_behind(changed: Option<Geometry>, present: &Formats) -> Formats
    requires { IsLegalChange changed }
    ensures formats { pair_of result ≡ formats_behind changed (pair_of present.now) }
    ensures stand { CanStand Dec (pair_of present.now) → CanStand Dec (pair_of result) }
{
    match changed {
        Some(geometry) => formats_found(present, &geometry),
        None => *present,
    }
}

impl Decoder {
    /// Takes the work of the running job back. A picture, or that a frame is damaged, goes to done with its
    /// destination; at a change the buffers are given back, the formats follow the new geometry, CAPTURE stops and
    /// an event tells it; after a fault both buffers come back with ERROR, and the codec begins anew. A source that
    /// is not used up is given back with its cursor.
    pub fn finish(&mut self, work: Work, outcome: Result<Outcome, EngineFault>)
        requires able { CanFinish self.old work outcome }
        ensures finished { IsFinished self.old self.new work outcome }
    {
        let Some(job) = self.job.take() else {
            unreachable!()
        };
        let Work {
            source,
            dest,
            reference,
            assembly,
            ..
        } = work;
        self.codec.take_back(assembly, reference);
        let end = end_of(&outcome, source.cursor == source.used, source.stamp);
        let source = source_back(job.source, source);
        let dest = lent_back(job.dest, dest);
        put_source(&mut self.m2m.pair, source, end.used_up, end.source_flags);
        end_dest(&mut self.m2m.pair, &mut self.m2m.events, dest, &end);
        begin_anew_where(end.fault, &mut self.codec);
        self.m2m.formats = formats_behind(end.changed, &self.m2m.formats);
        self.geometry = end.changed.or(self.geometry);
    }
}
