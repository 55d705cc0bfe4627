//! The device.

ghost use Rattle.std.specs.Prelude.{◌≡◌, ◌≢◌, ◌<◌, ◌≤◌, ◌+◌, ◌^◌, ℕ, length, IfOk, IfSome, None, replicate};
ghost use Rattle.vc_base.specs.Limits.{most_slots, most_workers};
ghost use Rattle.vc_base.specs.declared.Errno.TheVariants.{NoMem};
ghost use Rattle.vc_base.specs.declared.Reply.TheVariants.{Refused};
ghost use Rattle.vc_model.specs.Devices.{slot_of, job_of, steps_of};
ghost use Rattle.vc_model.specs.Core.{BroughtBack, new_core, core_claim, core_finish, core_shut, claimed_job, before_memory};
ghost use Rattle.vc_core.specs.Jobs.{Brings, HasJob, IsClaim, IsJobOfWorker, IsOfWorker};
ghost use Rattle.vc_queue.specs.Holds.{HoldState};
ghost use Rattle.vc_context.specs.Contexts.{TakesMemory};
ghost use Rattle.vc_context.specs.Payloads.{FitsSlot, Moves, HasNewZeros, AsksForBuffers};
ghost use Rattle.vc_core.specs.Steps.{IsCall};

use crate::job::{Finished, Job};
use crate::slot::Slot;
use std::alloc::Global;
use std::marker::Model;
use vc_base::{Call, NoMemory, Reply};
use vc_jobs::JobList;
use vc_queue::hold::Hold;

/// The device: its slots, the list of those that wait for a worker, and which slot's job each worker has.
/// Contracts see it as the state of the device, without the data that the running jobs have.
///
/// Each call of a slot that is answered otherwise than by `Blocked`, each claim that gives a job, each finish
/// and each shut is one step; `count`, `is_shut` and `refusal` are none. All that count steps have the
/// condition that fewer than 2^62 were made.
#[derive(Drop)]
pub struct Core {
    alloc: Global,
    slots: Vec<Slot>,
    list: JobList,
    workers: Vec<Option<u32>>,
    shut: bool,
    steps: u64,
}

impl Model for Core {
    ghost use Rattle.vc_model.specs.Standing.{CoreState};
    ghost use Rattle.vc_core.specs.Steps.{IsCore};

    ghost Value = { CoreState };

    ghost view = { λ c. record { slots = c.slots.items; waiting = c.list.waiting; workers = c.workers.items; is_shut = c.shut; steps = c.steps } };

    ghost invariant = { λ c. IsCore c.slots.items c.list c.steps };
}

/// So many closed slots.
fn closed_slots(alloc: Global, number: u32) -> Result<Vec<Slot>, NoMemory>
    ensures { IfOk result (λ slots. slots.items ≡ replicate number None) }
{
    let mut slots = Vec::new(alloc);
    for _slot in 0..number {
        let Ok(()) = slots.push(Slot::new()) else {
            return Err(NoMemory);
        };
    }
    Ok(slots)
}

/// The number of steps that a reply stands for.
fn steps_of(reply: &Reply) -> u64
    ensures { result ≡ steps_of reply.now }
{
    match reply {
        Reply::Blocked => 0,
        _ => 1,
    }
}

impl Core {
    /// A device of 1 to [`MOST_SLOTS`] closed slots and 1 to [`MOST_WORKERS`] workers without a job.
    ///
    /// # Errors
    /// `NoMemory` where memory for it was refused.
    pub fn make(alloc: Global, slots: u32, workers: u32) -> Result<Core, NoMemory>
        requires slots { (0 < slots) × (slots ≤ most_slots) }
        requires workers { (0 < workers) × (workers ≤ most_workers) }
        ensures { IfOk result (λ core. core ≡ new_core slots workers) }
    {
        let list = JobList::make(alloc, slots)?;
        let contents = closed_slots(alloc, slots)?;
        let workers = vec![in alloc; None; workers as usize]?;
        Ok(Core {
            alloc,
            slots: contents,
            list,
            workers,
            shut: false,
            steps: 0,
        })
    }

    /// Makes a call on a slot, counted from 0, with the payloads of the slot's user, which fit the slot's
    /// queues. docs/DEVICE.md has the table of calls: the tests of a call are made in order, a refusal and
    /// `Blocked` change nothing, and ENOMEM comes after every other test, and only where memory was asked for. What
    /// new buffers hold are zeros.
    pub fn call(&mut self, slot: u32, call: &Call, hold: &mut Hold) -> Reply
        requires slot { slot < length self.old.slots }
        requires fits { FitsSlot (slot_of self.old slot) hold.old }
        requires counts { self.old.steps < 2 ^ 62 }
        ensures step { IsCall self.old slot call.now hold.old result self.new }
        ensures payloads { Moves (slot_of self.old slot) call.now result hold.old hold.new }
        ensures zeros { HasNewZeros (slot_of self.old slot) call.now result hold.new }
        ensures asked { result ≡ Refused NoMem → AsksForBuffers call.now }
        ensures fit { FitsSlot (slot_of self.new slot) hold.new }
        ensures others { (k : ℕ) → k ≢ slot → slot_of self.new k ≡ slot_of self.old k }
        ensures size { length self.new.slots ≡ length self.old.slots }
        ensures crew { self.new.workers ≡ self.old.workers }
        ensures steps { self.new.steps ≡ self.old.steps + steps_of result }
    {
        let context = &mut self.slots[slot as usize];
        let reply = context.answer(self.alloc, call, hold);
        let is_due = context.is_claimable();
        self.list.settle(slot, is_due);
        self.steps += steps_of(&reply);
        reply
    }

    /// Gives the worker, which has no job, the job of the slot that waits longest, or none where no slot
    /// waits.
    pub fn claim(&mut self, worker: u32) -> Option<Job>
        requires worker { worker < length self.old.workers }
        requires free { job_of self.old worker ≡ None }
        requires counts { self.old.steps < 2 ^ 62 }
        ensures step { self.new ≡ (core_claim self.old worker).device }
        ensures job { IsClaim self.old.waiting (claimed_job self.old) result }
        ensures has { IfSome result (IsJobOfWorker self.new worker) }
        ensures holds { (k : ℕ) (hold : HoldState) → FitsSlot (slot_of self.old k) hold → FitsSlot (slot_of self.new k) hold }
        ensures size { length self.new.slots ≡ length self.old.slots }
        ensures crew { length self.new.workers ≡ length self.old.workers }
        ensures steps { self.new.steps ≤ self.old.steps + 1 }
    {
        let slot = self.list.take_front()?;
        let context = &mut self.slots[slot as usize];
        let job = context.claim(slot);
        self.workers[worker as usize] = Some(slot);
        self.steps += 1;
        Some(job)
    }

    /// Takes the job of a worker back, run or given up. It is the one that the worker has.
    pub fn finish(&mut self, worker: u32, finished: Finished)
        requires worker { worker < length self.old.workers }
        requires job { IsOfWorker self.old worker finished }
        requires counts { self.old.steps < 2 ^ 62 }
        ensures step { (k : ℕ) (back : BroughtBack) → HasJob self.old worker k back.job → Brings k back finished → self.new ≡ (core_finish self.old worker back).device }
        ensures holds { (k : ℕ) (hold : HoldState) → FitsSlot (slot_of self.old k) hold → FitsSlot (slot_of self.new k) hold }
        ensures size { length self.new.slots ≡ length self.old.slots }
        ensures crew { length self.new.workers ≡ length self.old.workers }
        ensures steps { self.new.steps ≡ self.old.steps + 1 }
    {
        let Some(slot) = self.workers[worker as usize] else {
            unreachable!()
        };
        self.workers[worker as usize] = None;
        let context = &mut self.slots[slot as usize];
        context.finish(finished);
        let is_due = context.is_claimable();
        self.list.settle(slot, is_due);
        self.steps += 1;
    }

    /// The number of steps so far.
    pub fn count(&self) -> u64
        ensures { result ≡ self.now.steps }
    {
        self.steps
    }

    /// Marks the device as shut. Of all else only the count of steps rises.
    pub fn shut(&mut self)
        requires counts { self.old.steps < 2 ^ 62 }
        ensures { self.new ≡ (core_shut self.old).device }
    {
        self.shut = true;
        self.steps += 1;
    }

    /// Whether the device is shut.
    pub fn is_shut(&self) -> bool
        ensures { result ≡ self.now.is_shut }
    {
        self.shut
    }

    /// What Open, ReqBufs or CreateBufs answers before memory is sought: the reply of the first test that
    /// applies, or none where all pass.
    pub fn refusal(&self, slot: u32, call: &Call) -> Option<Reply>
        requires slot { slot < length self.now.slots }
        requires memory { TakesMemory call.now }
        ensures { result ≡ before_memory (slot_of self.now slot) call.now }
    {
        let context = &self.slots[slot as usize];
        context.refusal(call)
    }
}
