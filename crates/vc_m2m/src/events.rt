//! Events, and what can be had without waiting: VIDIOC_SUBSCRIBE_EVENT, VIDIOC_UNSUBSCRIBE_EVENT, VIDIOC_DQEVENT and
//! poll().

ghost use Rattle.std.specs.Prelude.{◌≡◌};
ghost use Rattle.vc_base.specs.declared.Kind.{Kind};
ghost use Rattle.vc_base.specs.Events.{event_refusal, subscribe_after, unsubscribe_after, take_event_refusal, take_event_after};
ghost use Rattle.vc_model.specs.Context.{Context};
ghost use Rattle.vc_model.specs.Answer.{subscribe_answer, unsubscribe_answer, dqevent_answer, unchanged, readiness};
ghost use Rattle.vc_event.specs.Answers.{after_of};
ghost use Rattle.vc_pair.specs.Pairs.{IsSettled};
ghost use Rattle.vc_context.specs.Contexts.{Gives};
ghost use Rattle.vc_m2m.specs.Parts.{ArePartsOf, with_parts};

use crate::M2mContext;
use vc_base::{Kind, Reply, Side};
use vc_context::replies::{taken_or_blocked, told};
use vc_pair::Phase;

impl M2mContext {
    /// Subscribes an event that the kind has.
    pub(crate) fn subscribe(&mut self, kind: Kind, event: u32) -> Reply
        requires { IsSettled self.old.pair }
        ensures answers { (c : Context) → ArePartsOf c self.old → c.kind ≡ kind → Gives (subscribe_answer c event) result (with_parts c self.new) }
        ensures after { self.new ≡ record self.old { events = after_of (event_refusal kind event) self.old.events (subscribe_after self.old.events event) } }
    {
        told(self.events.subscribe(kind, event))
    }

    /// Ends the subscription of an event, and removes what is pending of it.
    pub(crate) fn unsubscribe(&mut self, kind: Kind, event: u32) -> Reply
        requires { IsSettled self.old.pair }
        ensures answers { (c : Context) → ArePartsOf c self.old → c.kind ≡ kind → Gives (unsubscribe_answer c event) result (with_parts c self.new) }
        ensures after { self.new ≡ record self.old { events = after_of (event_refusal kind event) self.old.events (unsubscribe_after self.old.events event) } }
    {
        told(self.events.unsubscribe(kind, event))
    }

    /// Takes the oldest pending event.
    pub(crate) fn dqevent(&mut self, block: bool) -> Reply
        requires { IsSettled self.old.pair }
        ensures answers { (c : Context) → ArePartsOf c self.old → Gives (dqevent_answer c block) result (with_parts c self.new) }
        ensures after { self.new ≡ record self.old { events = after_of (take_event_refusal self.old.events) self.old.events (take_event_after self.old.events) } }
    {
        taken_or_blocked(block, self.events.take())
    }

    /// What can be had without waiting.
    pub(crate) fn poll(&self) -> Reply
        ensures { (c : Context) → ArePartsOf c self.now → Gives (unchanged c (readiness c)) result c }
    {
        Reply::Ready {
            read: self.pair.queue(Side::Cap).done_len() > 0 || self.pair.phase() == Phase::Stopped,
            write: self.pair.queue(Side::Out).done_len() > 0,
            urgent: self.events.pending() > 0,
        }
    }
}
