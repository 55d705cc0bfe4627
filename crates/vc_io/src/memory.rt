ghost use Rattle.std.specs.Prelude.{◌≡◌, ◌↔◌, ◌<◌, ◌-◌, [], length, min, drop, Some, IfOk, OnOk, OnErr, IsErr, Contains};
ghost use Rattle.std.specs.Io.{ReadsAtMost, WritesAtMost};
ghost use Rattle.std.specs.Io.KnownBytes.{Keeps, ReadConsumes, WriteAppends};
ghost use Rattle.vc_base.specs.Counts.{HasCause, next_count};
ghost use Rattle.vc_io.specs.Memory.{IsRefused};
ghost use Rattle.vc_io.specs.Written.{IsFrontOf, IsHandedOn};

use crate::{ReadFailed, Sink, Source, WriteFailed};
use std::alloc::Global;
use std::marker::Model;
use vc_base::NoMemory;

/// A source over bytes in memory. A call gives at most `step` of them, and it fails exactly at the
/// calls whose numbers, counted from 0, are listed.
#[derive(Drop)]
pub struct MemSource {
    bytes: Vec<u8>,
    at: usize,
    step: usize,
    fails: Vec<u64>,
    calls: u64,
    faults: u64,
}

impl Model for MemSource {
    ghost use Rattle.std.specs.Prelude.{◌≤◌, ◌<◌, drop, vec_len};
    ghost use Rattle.vc_io.specs.Memory.{Feed};

    ghost Value = { Feed };

    ghost view = { λ s. record { left = drop s.at s.bytes.items; step = s.step; fails = s.fails.items; calls = s.calls; faults = s.faults } };

    ghost invariant = { λ s. (s.at ≤ vec_len s.bytes) × (0 < s.step) };
}

impl MemSource {
    /// A source that gives these bytes, at most `step` in a call, which is 1 or more. It fails at the
    /// calls of `read` whose numbers, counted from 0, stand in `fails`.
    pub fn make(bytes: Vec<u8>, step: usize, fails: Vec<u64>) -> MemSource
        requires { 0 < step }
        ensures left { result.left ≡ bytes.items }
        ensures step { result.step ≡ step }
        ensures fails { result.fails ≡ fails.items }
        ensures calls { result.calls ≡ 0 }
        ensures faults { result.faults ≡ 0 }
    {
        MemSource {
            bytes,
            at: 0,
            step,
            fails,
            calls: 0,
            faults: 0,
        }
    }
}

impl Source for MemSource {
    ghost left = { λ s. Some s.left };

    ghost faults = { λ s. s.faults };

    fn read(&mut self, buf: &mut [u8]) -> Result<usize, ReadFailed>
        ensures bound { ReadsAtMost result buf.new }
        ensures bytes { ReadConsumes (Some self.old.left) (Some self.new.left) result buf.new }
        ensures cause { HasCause self.old.faults self.new.faults result }

        // It fails at the calls that are listed, and there alone.
        ensures listed { IsErr result ↔ Contains self.old.fails self.old.calls }
        ensures count { IfOk result (λ n. n ≡ min (min (length buf.old) self.old.step) (length self.old.left)) }
        ensures quiet { OnOk result (self.new.faults ≡ self.old.faults) }
        ensures behind { IfOk result (λ n. drop n buf.new ≡ drop n buf.old) }
        ensures nothing { OnErr result (buf.new ≡ buf.old) }
        ensures calls { self.new.calls ≡ next_count self.old.calls }
        ensures same { (self.new.step ≡ self.old.step) × (self.new.fails ≡ self.old.fails) }
    {
        let fails = self.fails.contains(&self.calls);
        self.calls = self.calls.saturating_add(1);
        if fails {
            self.faults = self.faults.saturating_add(1);
            return Err(ReadFailed);
        }
        let count = buf.len().min(self.step).min(self.bytes.len() - self.at);
        buf[..count].copy_from_slice(&self.bytes[self.at..self.at + count]);
        self.at += count;
        Ok(count)
    }
}

/// A sink in memory with a fixed room, which hands on what was written where it is flushed. A call takes
/// at most `step` bytes. It fails exactly at the calls whose numbers, counted from 0, are listed, and
/// where bytes meet a full room.
#[derive(Drop)]
pub struct MemSink {
    bytes: Vec<u8>,
    handed: usize,
    room: usize,
    step: usize,
    fails: Vec<u64>,
    calls: u64,
    faults: u64,
}

impl Model for MemSink {
    ghost use Rattle.std.specs.Prelude.{◌≤◌, ◌<◌, take, vec_len, vec_capacity};
    ghost use Rattle.vc_io.specs.Memory.{Store};

    ghost Value = { Store };

    ghost view = { λ s. record { written = s.bytes.items; handed = take s.handed s.bytes.items; room = s.room; step = s.step; fails = s.fails.items; calls = s.calls; faults = s.faults } };

    ghost invariant = { λ s. (vec_len s.bytes ≤ s.room) × (s.room ≤ vec_capacity s.bytes) × (0 < s.step) × (s.handed ≤ vec_len s.bytes) };
}

impl MemSink {
    /// A sink with room for so many bytes, taken now: writing takes no memory. A call takes at most
    /// `step` bytes, which is 1 or more. It fails at the calls, of `write` and `flush` together, whose
    /// numbers, counted from 0, stand in `fails`, and where bytes meet a full room.
    ///
    /// # Errors
    /// `NoMemory` where no memory is found for the room.
    pub fn make(
        alloc: Global,
        room: usize,
        step: usize,
        fails: Vec<u64>,
    ) -> Result<MemSink, NoMemory>
        requires { 0 < step }
        ensures written { IfOk result (λ s. s.written ≡ []) }
        ensures handed { IfOk result (λ s. s.handed ≡ []) }
        ensures room { IfOk result (λ s. s.room ≡ room) }
        ensures step { IfOk result (λ s. s.step ≡ step) }
        ensures fails { IfOk result (λ s. s.fails ≡ fails.items) }
        ensures calls { IfOk result (λ s. s.calls ≡ 0) }
        ensures faults { IfOk result (λ s. s.faults ≡ 0) }
    {
        Ok(MemSink {
            bytes: Vec::with_capacity(alloc, room)?,
            handed: 0,
            room,
            step,
            fails,
            calls: 0,
            faults: 0,
        })
    }

    /// All bytes that were written.
    pub fn into_bytes(self) -> Vec<u8>
        ensures { result.items ≡ self.written }
    {
        self.bytes
    }
}

impl Sink for MemSink {
    ghost written = { λ s. Some s.written };

    ghost handed = { λ s. Some s.handed };

    ghost faults = { λ s. s.faults };

    fn write(&mut self, bytes: &[u8]) -> Result<usize, WriteFailed>
        ensures bound { WritesAtMost result bytes.now }
        ensures progress { IfOk result (λ n. 0 < length bytes.now → 0 < n) }
        ensures bytes { WriteAppends (Some self.old.written) (Some self.new.written) result bytes.now }
        ensures handed { IsFrontOf (Some self.new.handed) (Some self.new.written) }
        ensures grows { IsFrontOf (Some self.old.handed) (Some self.new.handed) }
        ensures cause { HasCause self.old.faults self.new.faults result }

        // It fails at the calls that are listed and where bytes meet a full room, and there alone.
        ensures listed { IsErr result ↔ IsRefused self.old (length bytes.now) }
        ensures count { IfOk result (λ n. n ≡ min (min (length bytes.now) self.old.step) (self.old.room - length self.old.written)) }
        ensures quiet { OnOk result (self.new.faults ≡ self.old.faults) }
        ensures calls { self.new.calls ≡ next_count self.old.calls }
        ensures kept_back { self.new.handed ≡ self.old.handed }
        ensures same { (self.new.room ≡ self.old.room) × (self.new.step ≡ self.old.step) × (self.new.fails ≡ self.old.fails) }
    {
        let fails = self.fails.contains(&self.calls);
        self.calls = self.calls.saturating_add(1);
        let left = self.room - self.bytes.len();
        if fails || (left == 0 && !bytes.is_empty()) {
            self.faults = self.faults.saturating_add(1);
            return Err(WriteFailed);
        }
        let count = bytes.len().min(self.step).min(left);
        if self.bytes.extend_from_slice(&bytes[..count]).is_err() {
            unreachable!();
        }
        Ok(count)
    }

    fn flush(&mut self) -> Result<(), WriteFailed>
        ensures written { Keeps (Some self.old.written) (Some self.new.written) }
        ensures all { OnOk result (IsHandedOn (Some self.new.handed) (Some self.new.written)) }
        ensures handed { IsFrontOf (Some self.new.handed) (Some self.new.written) }
        ensures grows { IsFrontOf (Some self.old.handed) (Some self.new.handed) }
        ensures cause { HasCause self.old.faults self.new.faults result }
        ensures quiet { OnOk result (self.new.faults ≡ self.old.faults) }

        // It fails at the calls that are listed, and there alone.
        ensures listed { IsErr result ↔ Contains self.old.fails self.old.calls }
        ensures kept_back { OnErr result (self.new.handed ≡ self.old.handed) }
        ensures calls { self.new.calls ≡ next_count self.old.calls }
        ensures same { (self.new.room ≡ self.old.room) × (self.new.step ≡ self.old.step) × (self.new.fails ≡ self.old.fails) }
    {
        let call = self.calls;
        self.calls = self.calls.saturating_add(1);
        if self.fails.contains(&call) {
            self.faults = self.faults.saturating_add(1);
            return Err(WriteFailed);
        }
        self.handed = self.bytes.len();
        Ok(())
    }
}
