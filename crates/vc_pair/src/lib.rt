//! Two queues with a phase and a mark: draining, stopping and settling.
//!
//! The rules follow the sections "Drain" of the chapters "Memory-to-Memory Stateful Video Decoder Interface"
//! and "Memory-to-Memory Stateful Video Encoder Interface", and "Dynamic Resolution Change" of the first, of
//! the Linux userspace API documentation, as far as docs/DEVICE.md does not say otherwise.
#![tactic(auto)]

ghost use Rattle.std.specs.Prelude.{◌≡◌, ◌≢◌, ◌<◌, ◌^◌, not, ◌&&◌, ◌||◌, ℕ, None, Some, List, [], ◌∷◌, take, bit_or, is_some, false, IsTrue, min, Err, OnErr, OnOk, ◌++◌};
ghost use Rattle.vc_base.specs.declared.Side.TheVariants.{Out, Cap};
ghost use Rattle.vc_base.specs.declared.Errno.TheVariants.{NoMem};
ghost use Rattle.vc_base.specs.Buffers.{without_job_bytes, lend_after, give_back_after, retire_after, streamon_refusal, streamon_after, is_empty, buffer_count, qbuf_refusal, qbuf_after, dqbuf_refusal, reqbufs_refusal, reqbufs_after, create_refusal, created, create_after};
ghost use Rattle.vc_base.specs.Limits.{most_buffers};
ghost use Rattle.vc_model.specs.Context.{run, owe, last, stopped, is_run, is_stopped, is_drained, PhaseState};
ghost use Rattle.vc_model.specs.Answer.{start_is_early, without_drain_stop, mark_after_restart};
ghost use Rattle.vc_model.specs.Phases.{is_owed, is_stopped_by_drain};
ghost use Rattle.vc_queue.specs.Answers.{answer_of, after_of, queued_bytes, front_taken, HandsBack};
ghost use Rattle.vc_queue.specs.Growing.{AnswersWithMemory, KeepsFirst, AreZero};
ghost use Rattle.vc_queue.specs.Holds.{HoldState, with_payload};
ghost use Rattle.vc_queue.specs.Releasing.{AllGoToUser};
ghost use Rattle.vc_queue.specs.Lending.{IsLentFrom, IsBack, back_bytes};
ghost use Rattle.vc_pair.specs.Pairs.{PairState, new_pair, queue_at, with_queue_at, IsIdle, both_streaming, stop_refusal, pair_marked, start_refusal, pair_started, is_final, cap_retired, out_retired, pair_changed, owes_last, owing, given, gives_end, FitsBoth, is_ended_at, pair_at_last, pair_taken, pair_off, pair_put, MakesBuffers, AddsBuffers, pair_settled, raises_end, is_due, IsSettled};
ghost use Rattle.vc_pair.specs.Phases.{phase_alone, phase_of};

pub mod laws;

use bitflags::Flags;
use std::alloc::Global;
use std::marker::Model;
use vc_base::flags::BufFlags;
use vc_base::{Errno, Reply, Side, Stamp};
use vc_queue::hold::Hold;
use vc_queue::queue::{Lent, Queue};

/// Whether jobs may run, and where a stop stands.
#[derive(Clone, Copy, Debug, PartialEq, Eq)]
pub enum Phase {
    /// Jobs may run. With a mark a drain is in progress.
    Run,
    /// A LAST buffer is due, and no CAPTURE buffer was ready for it.
    Owe,
    /// The LAST buffer is the final entry of CAPTURE's done list.
    Last,
    /// The LAST buffer was dequeued.
    Stopped,
}

/// The queues of a context, its phase with the cause, and its mark. A stop is by a drain or by a change of
/// the resolution. The mark is the number of OUTPUT buffers that were queued before STOP; a buffer is
/// before the mark where its ordinal is smaller.
#[derive(Drop)]
pub struct Pair {
    out: Queue,
    cap: Queue,
    phase: Phase,
    by_change: bool,
    mark: Option<u64>,
}

impl Model for Pair {
    ghost use Rattle.vc_pair.specs.Pairs.{PairState, IsPair};
    ghost use Rattle.vc_pair.specs.Phases.{phase_of};

    ghost Value = { PairState };

    ghost view = { λ p. record { out = p.out; cap = p.cap; phase = phase_of p.phase p.by_change; mark = p.mark } };

    ghost invariant = { λ p. IsPair (record { out = p.out; cap = p.cap; phase = phase_of p.phase p.by_change; mark = p.mark }) };
}

impl Pair {
    /// Two queues without buffers, in phase Run without a mark.
    pub fn new() -> Pair
        ensures { result ≡ new_pair }
    {
        Pair {
            out: Queue::new(Side::Out),
            cap: Queue::new(Side::Cap),
            phase: Phase::Run,
            by_change: false,
            mark: None,
        }
    }

    /// The queue of a side.
    pub fn queue(&self, side: Side) -> &Queue
        ensures { result.now ≡ queue_at self.now side }
    {
        match side {
            Side::Out => &self.out,
            Side::Cap => &self.cap,
        }
    }

    /// The phase.
    pub fn phase(&self) -> Phase
        ensures { result ≡ phase_alone self.now.phase }
    {
        self.phase
    }

    /// Whether the front ready OUTPUT buffer may be worked on: there is no mark, or it is before it.
    pub fn front_due(&self) -> bool
        ensures { result ≡ is_due self.now.out.ready self.now.mark }
    {
        let Some(ordinal) = self.out.front_ordinal() else {
            return false;
        };
        match self.mark {
            Some(mark) => ordinal < mark,
            None => true,
        }
    }

    /// Whether there is a mark, and no ready OUTPUT buffer is before it.
    fn is_drained(&self) -> bool
        ensures { result ≡ is_drained self.now.out.ready self.now.mark }
    {
        match self.mark {
            Some(mark) => !self.out.has_before(mark),
            None => false,
        }
    }

    /// VIDIOC_STREAMON of a side. `least` is the size of a buffer for the present format.
    ///
    /// # Errors
    /// Those of [`Queue::streamon`].
    pub fn streamon(&mut self, side: Side, least: u32) -> Result<(), Errno>
        ensures answer { result ≡ answer_of (streamon_refusal (queue_at self.old side) least) tt }
        ensures after { self.new ≡ with_queue_at self.old side (after_of (streamon_refusal (queue_at self.old side) least) (queue_at self.old side) (streamon_after (queue_at self.old side))) }
    {
        match side {
            Side::Out => self.out.streamon(least),
            Side::Cap => self.cap.streamon(least),
        }
    }

    /// Whether both queues stream.
    fn both_streaming(&self) -> bool
        ensures { result ≡ both_streaming self.now }
    {
        self.out.is_streaming() && self.cap.is_streaming()
    }

    /// Whether the pair stopped at the end of a drain.
    fn is_stopped_by_drain(&self) -> bool
        ensures { result ≡ is_stopped_by_drain self.now.phase }
    {
        match self.phase {
            Phase::Run => false,
            Phase::Owe => false,
            Phase::Last => false,
            Phase::Stopped => !self.by_change,
        }
    }

    /// STOP (V4L2_DEC_CMD_STOP, V4L2_ENC_CMD_STOP): begins a drain, by a mark behind all that was queued on
    /// OUTPUT. It is without effect where a queue does not stream, or the pair stopped by a drain. Settling
    /// comes after it.
    ///
    /// # Errors
    /// EBUSY where both queues stream and a drain is in progress.
    pub fn stop(&mut self) -> Result<(), Errno>
        ensures answer { result ≡ answer_of (stop_refusal self.old) tt }
        ensures after { self.new ≡ after_of (stop_refusal self.old) self.old (pair_marked self.old) }
    {
        if !self.both_streaming() {
            return Ok(());
        }
        if self.mark.is_some() {
            return Err(Errno::Busy);
        }
        if self.is_stopped_by_drain() {
            return Ok(());
        }
        self.mark = Some(self.out.queued());
        Ok(())
    }

    /// Whether START comes before the stop that it is to end.
    fn start_is_early(&self) -> bool
        ensures { result ≡ start_is_early self.now.phase self.now.mark }
    {
        match self.phase {
            Phase::Run => self.mark.is_some(),
            Phase::Owe => true,
            Phase::Last => true,
            Phase::Stopped => false,
        }
    }

    /// START (V4L2_DEC_CMD_START, V4L2_ENC_CMD_START): ends a stop whose LAST buffer was dequeued; a mark that
    /// a change left stays. It is without effect where a queue does not stream, or jobs may run. `least` is
    /// the size of a CAPTURE buffer for the present format. Settling comes after it.
    ///
    /// # Errors
    /// Where both queues stream: EBUSY where a drain is in progress in phase Run, or the LAST buffer is due or
    /// not yet dequeued; else EINVAL where [`Queue::long_enough`] of CAPTURE is false.
    pub fn start(&mut self, least: u32) -> Result<(), Errno>
        ensures answer { result ≡ answer_of (start_refusal self.old least) tt }
        ensures after { self.new ≡ after_of (start_refusal self.old least) self.old (pair_started self.old) }
    {
        if !self.both_streaming() {
            return Ok(());
        }
        if self.start_is_early() {
            return Err(Errno::Busy);
        }
        if !self.cap.long_enough(least) {
            return Err(Errno::Inval);
        }
        self.phase = Phase::Run;
        Ok(())
    }

    /// Stops the pair for a new resolution, where CAPTURE streams: a LAST buffer is due. Settling comes after
    /// it.
    pub fn change(&mut self)
        requires { IsIdle self.old }
        ensures { self.new ≡ pair_changed self.old }
    {
        if self.cap.is_streaming() {
            self.phase = Phase::Owe;
            self.by_change = true;
        }
    }

    /// Moves the front of ready of a queue into the job, and hands out its payload. Jobs run in phase Run
    /// alone.
    pub fn lend(&mut self, side: Side) -> Lent
        requires running { self.old.phase ≡ run }
        requires ready { (queue_at self.old side).ready ≢ [] }
        requires none_lent { (queue_at self.old side).job ≡ [] }
        ensures after { self.new ≡ with_queue_at self.old side (without_job_bytes (lend_after (queue_at self.old side))) }
        ensures lent { IsLentFrom (queue_at self.old side).ready result }
    {
        match side {
            Side::Out => self.out.lend(),
            Side::Cap => self.cap.lend(),
        }
    }

    /// Puts the lent buffer of a queue back at the front of ready, with the cursor that it carries.
    pub fn give_back(&mut self, side: Side, lent: Lent)
        requires one { (queue_at self.old side).job ≢ [] }
        requires whole { IsBack (queue_at self.old side).job lent }
        ensures { self.new ≡ with_queue_at self.old side (give_back_after (queue_at self.old side) lent.cursor (back_bytes (queue_at self.old side).job lent)) }
    {
        match side {
            Side::Out => self.out.give_back(lent),
            Side::Cap => self.cap.give_back(lent),
        }
    }

    /// Puts the lent OUTPUT buffer on done, with the flags, and used bytes and stamp as it was queued.
    pub fn retire_out(&mut self, lent: Lent, flags: u32)
        requires one { self.old.out.job ≢ [] }
        requires whole { IsBack self.old.out.job lent }
        requires counts { self.old.out.next_seq < 2 ^ 62 }
        ensures { self.new ≡ out_retired self.old (back_bytes self.old.out.job lent) flags }
    {
        let Some((used, stamp)) = self.out.queued_with() else {
            unreachable!()
        };
        self.out.retire(lent, used, flags, stamp);
    }

    /// Puts the lent CAPTURE buffer on done, with used bytes, flags and stamp as given. Where there is a mark
    /// and no ready OUTPUT buffer is before it, the buffer has LAST too, the phase is Last by a drain, and the
    /// answer is true: the event of the end of the drain is to be raised. The source has to be out of the job.
    pub fn retire_cap(&mut self, lent: Lent, used: u32, flags: u32, stamp: Stamp) -> bool
        requires one { self.old.cap.job ≢ [] }
        requires whole { IsBack self.old.cap.job lent }
        requires source { self.old.out.job ≡ [] }
        requires counts { self.old.cap.next_seq < 2 ^ 62 }
        ensures after { self.new ≡ cap_retired self.old used (take used lent.payload.items) flags stamp }
        ensures raises { result ≡ is_final self.old }
    {
        if !self.is_drained() {
            self.cap.retire(lent, used, flags, stamp);
            return false;
        }
        self.cap
            .retire(lent, used, flags | BufFlags::LAST.bits(), stamp);
        self.phase = Phase::Last;
        self.by_change = false;
        true
    }

    /// Whether a drained pair owes its LAST buffer.
    fn owes_last(&self) -> bool
        ensures { result ≡ owes_last self.now }
    {
        self.is_running()
            && self.cap.is_streaming()
            && !self.out.is_lent()
            && !self.cap.is_lent()
            && self.is_drained()
    }

    /// Whether the phase is Run.
    fn is_running(&self) -> bool
        ensures { result ≡ is_run self.now.phase }
    {
        match self.phase {
            Phase::Run => true,
            Phase::Owe => false,
            Phase::Last => false,
            Phase::Stopped => false,
        }
    }

    /// Lets a drained pair owe its LAST buffer.
    fn owe(&mut self)
        ensures { self.new ≡ owing self.old }
    {
        if self.owes_last() {
            self.phase = Phase::Owe;
            self.by_change = false;
        }
    }

    /// Whether a LAST buffer is owed.
    fn is_owed(&self) -> bool
        ensures { result ≡ is_owed self.now.phase }
    {
        match self.phase {
            Phase::Run => false,
            Phase::Owe => true,
            Phase::Last => false,
            Phase::Stopped => false,
        }
    }

    /// Gives the LAST buffer that is owed, where a CAPTURE buffer is ready. The answer is true where a
    /// drain has come to its end.
    fn give_last(&mut self) -> bool
        requires counts { self.old.cap.next_seq < 2 ^ 62 }
        ensures after { self.new ≡ given self.old self.old.phase }
        ensures raises { result ≡ gives_end self.old self.old.phase }
    {
        if !self.is_owed() {
            return false;
        }
        if self.cap.front_ordinal().is_none() {
            return false;
        }
        let lent = self.cap.lend();
        self.cap.retire(lent, 0, BufFlags::LAST.bits(), Stamp(0));
        self.phase = Phase::Last;
        !self.by_change
    }

    /// Settles, after every call and every finish. In phase Run with a mark, with CAPTURE streaming, no job
    /// and no ready OUTPUT buffer before the mark, the LAST buffer of the drain is due. A LAST buffer that is
    /// due is given as soon as a CAPTURE buffer is ready: the front one goes to done, empty and with stamp 0.
    /// The answer is true where a drain has come to its end: its event is to be raised.
    pub fn settle(&mut self) -> bool
        requires counts { self.old.cap.next_seq < 2 ^ 62 }
        ensures after { self.new ≡ pair_settled self.old }
        ensures raises { result ≡ raises_end self.old }
        ensures settled { IsSettled self.new }
        ensures again { IsSettled self.old → (self.new ≡ self.old) × (result ≡ false) }
        ensures fit { (hold : HoldState) → FitsBoth self.old hold → FitsBoth self.new hold }
    {
        self.owe();
        self.give_last()
    }

    /// VIDIOC_QBUF of a side. Settling comes after it.
    ///
    /// # Errors
    /// Those of [`Queue::qbuf`].
    pub fn qbuf(
        &mut self,
        side: Side,
        index: u32,
        used: u32,
        stamp: Stamp,
        least: u32,
        hold: &mut Hold,
    ) -> Result<(), Errno>
        requires fit { FitsBoth self.old hold.old }
        requires counts { (queue_at self.old side).next_ordinal < 2 ^ 62 }
        ensures answer { result ≡ answer_of (qbuf_refusal (queue_at self.old side) index used least) tt }
        ensures after { self.new ≡ after_of (qbuf_refusal (queue_at self.old side) index used least) self.old (pair_put self.old side index used stamp hold.old) }
        ensures payload { hold.new ≡ after_of (qbuf_refusal (queue_at self.old side) index used least) hold.old (with_payload hold.old side index None) }
        ensures fit { FitsBoth self.new hold.new }
    {
        match side {
            Side::Out => self.out.qbuf(index, used, stamp, least, hold),
            Side::Cap => self.cap.qbuf(index, used, stamp, least, hold),
        }
    }

    /// Whether the user took the LAST buffer.
    fn is_stopped(&self) -> bool
        ensures { result ≡ is_stopped self.now.phase }
    {
        match self.phase {
            Phase::Run => false,
            Phase::Owe => false,
            Phase::Last => false,
            Phase::Stopped => true,
        }
    }

    /// Stops where the user took the final entry of CAPTURE's done list in phase Last.
    fn stop_at_last(&mut self)
        ensures { self.new ≡ pair_at_last self.old self.old.phase (is_empty self.old.cap.done) }
    {
        let last = match self.phase {
            Phase::Run => false,
            Phase::Owe => false,
            Phase::Last => true,
            Phase::Stopped => false,
        };
        if !last || self.cap.done_len() > 0 {
            return;
        }
        self.phase = Phase::Stopped;
        if self.by_change {
            return;
        }
        self.mark = None;
    }

    /// VIDIOC_DQBUF of a side. The user who takes the final entry of CAPTURE's done list in phase Last stops
    /// the pair; by a drain the mark is removed.
    ///
    /// # Errors
    /// EINVAL where the queue does not stream, else on CAPTURE EPIPE in phase Stopped, else EAGAIN where no
    /// buffer is done.
    pub fn dqbuf(&mut self, side: Side, hold: &mut Hold) -> Result<Reply, Errno>
        requires fit { FitsBoth self.old hold.old }
        ensures answer { result ≡ answer_of (dqbuf_refusal (queue_at self.old side) (is_ended_at self.old side)) (front_taken (queue_at self.old side).done) }
        ensures after { self.new ≡ after_of (dqbuf_refusal (queue_at self.old side) (is_ended_at self.old side)) self.old (pair_taken self.old side) }
        ensures payload { HandsBack (dqbuf_refusal (queue_at self.old side) (is_ended_at self.old side)) side (queue_at self.old side).done hold.old hold.new }
        ensures fit { FitsBoth self.new hold.new }
    {
        match side {
            Side::Out => self.out.dqbuf(false, hold),
            Side::Cap => {
                let ended = self.is_stopped();
                let reply = self.cap.dqbuf(ended, hold);
                if reply.is_err() {
                    return reply;
                }
                self.stop_at_last();
                reply
            }
        }
    }

    /// Removes the mark, and ends a stop by a drain.
    fn leave_drain(&mut self)
        ensures { self.new ≡ record self.old { mark = None; phase = without_drain_stop self.old.phase } }
    {
        self.mark = None;
        if !self.by_change {
            self.phase = Phase::Run;
        }
    }

    /// Ends a stop. The mark stays where the pair stopped by a change.
    fn restart(&mut self)
        ensures { self.new ≡ record self.old { mark = mark_after_restart self.old.phase self.old.mark; phase = run } }
    {
        if self.is_running() || !self.by_change {
            self.mark = None;
            self.phase = Phase::Run;
            return;
        }
        self.phase = Phase::Run;
    }

    /// VIDIOC_STREAMOFF of a side, while no job runs: the user holds the ready and done buffers again. On OUTPUT
    /// the mark is removed and a stop by a drain ends, and a stop by a change stays. On CAPTURE, where it
    /// streamed, the phase is Run, and the mark is removed unless the pair stopped by a change.
    pub fn streamoff(&mut self, side: Side, hold: &mut Hold)
        requires idle { IsIdle self.old }
        requires fit { FitsBoth self.old hold.old }
        ensures after { self.new ≡ pair_off self.old side }
        ensures payloads { AllGoToUser side ((queue_at self.old side).ready ++ (queue_at self.old side).done) hold.old hold.new }
        ensures fit { FitsBoth self.new hold.new }
    {
        match side {
            Side::Out => {
                self.out.streamoff(hold);
                self.leave_drain();
            }
            Side::Cap => {
                let streaming = self.cap.is_streaming();
                self.cap.streamoff(hold);
                if streaming {
                    self.restart();
                }
            }
        }
    }

    /// VIDIOC_REQBUFS of a side: drops all buffers of the queue, and makes `count` new ones of `length` bytes,
    /// [`MOST_BUFFERS`] at most. Their payloads are zeros.
    ///
    /// # Errors
    /// Those of [`Queue::reqbufs`].
    pub fn reqbufs(
        &mut self,
        alloc: Global,
        side: Side,
        count: u32,
        length: u32,
        hold: &mut Hold,
    ) -> Result<u32, Errno>
        requires fit { FitsBoth self.old hold.old }
        ensures answer { MakesBuffers (queue_at self.old side) count length result (queue_at self.new side) }
        ensures rest { self.new ≡ with_queue_at self.old side (queue_at self.new side) }
        ensures zeros { OnOk result (AreZero side 0 (min count most_buffers) length hold.new) }
        ensures asked { result ≡ Err NoMem → 0 < count }
        ensures other { KeepsFirst side 0 hold.old hold.new }
        ensures unchanged { OnErr result (hold.new ≡ hold.old) }
        ensures fit { FitsBoth self.new hold.new }
    {
        match side {
            Side::Out => self.out.reqbufs(alloc, count, length, hold),
            Side::Cap => self.cap.reqbufs(alloc, count, length, hold),
        }
    }

    /// VIDIOC_CREATE_BUFS of a side: adds `count` buffers of `length` bytes, as far as there is room for
    /// [`MOST_BUFFERS`]. Their payloads are zeros.
    ///
    /// # Errors
    /// Those of [`Queue::create`].
    pub fn create(
        &mut self,
        alloc: Global,
        side: Side,
        count: u32,
        length: u32,
        hold: &mut Hold,
    ) -> Result<(u32, u32), Errno>
        requires fit { FitsBoth self.old hold.old }
        ensures answer { AddsBuffers (queue_at self.old side) count length result (queue_at self.new side) }
        ensures rest { self.new ≡ with_queue_at self.old side (queue_at self.new side) }
        ensures zeros { OnOk result (AreZero side (buffer_count (queue_at self.old side)) (created (queue_at self.old side) count) length hold.new) }
        ensures asked { result ≡ Err NoMem → 0 < count }
        ensures kept { KeepsFirst side (buffer_count (queue_at self.old side)) hold.old hold.new }
        ensures unchanged { OnErr result (hold.new ≡ hold.old) }
        ensures fit { FitsBoth self.new hold.new }
    {
        match side {
            Side::Out => self.out.create(alloc, count, length, hold),
            Side::Cap => self.cap.create(alloc, count, length, hold),
        }
    }
}

#[cfg(test)]
mod tests;
