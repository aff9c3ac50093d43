ghost use Rattle.std.specs.Prelude.{◌≡◌, ◌<◌, ◌≤◌, length};
ghost use Rattle.ring_model.specs.Ring.{bound};
ghost use Rattle.ring_model.specs.History.{opening};
ghost use Rattle.ring_model.specs.HistoryLaws.{Settlement};
ghost use Rattle.ring_model.specs.Progress.{Progress};
ghost use Rattle.ring_model.specs.Surveys.{survey_at, calm as calm_of};
ghost use Rattle.ring_model.specs.Logs.{calls_of};
ghost use Rattle.ring_model.specs.Limits.{seat_limit};
ghost use Rattle.ring_book.specs.GrantsView.{IsGrantsOf};
ghost use Rattle.ring_book.specs.BookView.{IsBook};

use crate::books::Book;
use crate::grants::GrantBook;
use crate::resources::Resource;
use ring_model::{Event, Survey};
use ring_settle::survey_here;
use ring_state::RingState;

// No reader takes memory.
impl<R: Resource + Drop> Book<R> {
    /// The state of the ring.
    pub fn state(&self) -> &RingState
        ensures is { result.now ≡ self.now.now.ring }
        ensures book { IsBook R.works R.first self.now }
    {
        &self.parts.ring
    }

    /// The state that the book started with.
    pub fn start(&self) -> &RingState
        ensures is { result.now ≡ self.now.start }
        ensures book { IsBook R.works R.first self.now }
    {
        &self.parts.start
    }

    /// The resource.
    pub fn resource(&self) -> &R
        ensures is { result.now ≡ self.now.now.content }
        ensures book { IsBook R.works R.first self.now }
    {
        &self.parts.resource
    }

    /// The events, in order.
    pub fn history(&self) -> &[Event]
        ensures is { result.now ≡ self.now.history }
        ensures book { IsBook R.works R.first self.now }
        ensures settlement { Settlement R.works (opening self.now.start R.first) self.now.history }
        ensures progress { Progress R.works (opening self.now.start R.first) self.now.history }
    {
        self.parts.events.as_slice()
    }

    /// The survey of the ring after all events.
    pub fn survey(&self) -> Survey
        ensures is { result
            ≡ survey_at R.works (opening self.now.start R.first) self.now.history
            (length self.now.history) }
        ensures book { IsBook R.works R.first self.now }
        ensures settlement { Settlement R.works (opening self.now.start R.first) self.now.history }
        ensures progress { Progress R.works (opening self.now.start R.first) self.now.history }
        ensures calm { bound (length self.now.start.values) ≤ result.calm
            → (result.privileged ≡ 1) × (result.rest ≡ 0) }
    {
        let position = self.parts.events.as_slice().len() as u64;
        survey_here(&self.parts.ring, position, self.parts.tally.calm())
    }

    /// The calm: how many passes were granted since the last corruption, or since the start if there was none.
    pub fn calm(&self) -> u64
        ensures is { result ≡ calm_of self.now.history }
        ensures book { IsBook R.works R.first self.now }
    {
        self.parts.tally.calm()
    }

    /// The granted passes of the history.
    pub fn grants(&self) -> &GrantBook
        ensures is { IsGrantsOf R.works (opening self.now.start R.first) self.now.history
            (length self.now.start.values) result.now }
        ensures book { IsBook R.works R.first self.now }
    {
        self.parts.tally.grants()
    }

    /// How many events of the history are calls of `seat`, which is below `SEAT_LIMIT`.
    pub fn calls_of(&self, seat: u32) -> u64
        requires { seat < seat_limit }
        ensures is { result ≡ length (calls_of seat self.now.history) }
        ensures book { IsBook R.works R.first self.now }
    {
        self.parts.tally.calls_of(seat)
    }
}
