//! The summary of a list of events, to survey its end: the ring there, how many events, and the calm.
ghost use Rattle.std.specs.Prelude.{◌≡◌, ◌<◌, ◌≤◌, ◌+◌, length};
ghost use Rattle.ring_model.specs.Ring.{written};
ghost use Rattle.ring_model.specs.Limits.{event_limit};
ghost use Rattle.ring_model.specs.Surveys.{survey_from};

use ring_model::Survey;
use ring_settle::survey_here;
use ring_state::RingState;

/// The effect of the last of some events on a summary: it left this value in this machine, and the calm after it.
#[derive(Clone, Copy)]
pub(crate) struct Effect {
    pub(crate) machine: u32,
    pub(crate) value: u32,
    pub(crate) calm: u64,
}

/// The ring after a number of events, and the calm there.
#[derive(Drop)]
pub(crate) struct Summary {
    pub(crate) ring: RingState,
    pub(crate) position: u64,
    pub(crate) calm: u64,
}

impl Summary {
    /// Of no events.
    pub(crate) fn new(ring: RingState) -> Summary
        ensures ring { result.ring ≡ ring }
        ensures none { (result.position ≡ 0) × (result.calm ≡ 0) }
    {
        Summary {
            ring,
            position: 0,
            calm: 0,
        }
    }

    /// Moves on by one event, which left `value` in `machine` and the calm at `calm`. It takes no memory, and
    /// its time does not depend on how many machines there are.
    pub(crate) fn go_on(&mut self, machine: u32, value: u32, calm: u64)
        requires machine { machine < length self.old.ring.values }
        requires value { value < self.old.ring.k }
        requires room { self.old.position < event_limit }
        ensures ring { self.new.ring ≡ written self.old.ring machine value }
        ensures position { self.new.position ≡ self.old.position + 1 }
        ensures calm { self.new.calm ≡ calm }
    {
        self.ring.write(machine, value);
        self.calm = calm;
        self.position += 1;
    }

    /// Becomes that of this ring, of as many machines and values, at this position with this calm. It takes no memory.
    pub(crate) fn go_to(&mut self, ring: &RingState, position: u64, calm: u64)
        requires machines { length self.old.ring.values ≡ length ring.now.values }
        requires values { self.old.ring.k ≡ ring.now.k }
        ensures ring { self.new.ring ≡ ring.now }
        ensures position { self.new.position ≡ position }
        ensures calm { self.new.calm ≡ calm }
    {
        self.ring.copy_from(ring);
        self.position = position;
        self.calm = calm;
    }

    /// The survey here.
    pub(crate) fn survey(&self) -> Survey
        ensures { result ≡ survey_from self.now.ring self.now.position self.now.calm }
    {
        survey_here(&self.ring, self.position, self.calm)
    }
}
