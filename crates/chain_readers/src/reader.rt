//! The holds of a lock, read from the segments of its ring, one after the other.

ghost use Rattle.std.specs.Prelude.{◌≡◌, List, Bool, IfOk, Ok};
ghost use Rattle.saved_history.specs.Content.{block_of};
ghost use Rattle.chain_readers.specs.Signs.{ended, signs_of};
ghost use Rattle.chain_readers.specs.Known.{known, nobody_holds, nothing_known, all_holds, IsStep, IsBegun, IsRead, IsSegmentRead};
ghost use Rattle.chain_readers.specs.Ends.{tally};
ghost use Rattle.chain_readers.specs.declared.signs.Sign.TheVariants.{Granted, Carried, Ended, Other};

use crate::ends::{Ends, ends_of};
use crate::hold_errors::HoldError;
use crate::holds::{End, Grant, Hold};
use crate::signs::{Sign, place, sign_of};
use ring_model::Base;
use saved_history::SavedRing;
use std::alloc::{AllocError, Global};

/// How a lock is at a place of its history.
#[derive(Clone, Copy)]
pub enum Standing {
    /// Before the first event that is known, if others came before it.
    Unknown,
    /// Nobody holds it.
    Free,
    /// The hold with the newest token is open; its grant, if that is known.
    Held(Option<Grant>),
}

/// What is known of the holds of a lock.
#[derive(Drop)]
pub struct HoldReader {
    token: u64,
    standing: Standing,
    ended: Vec<Hold>,
}

impl HoldReader {
    /// Before the first segment of a ring: nobody holds its lock.
    pub fn first(alloc: Global) -> HoldReader
        ensures { known result ≡ nobody_holds }
    {
        HoldReader {
            token: 0,
            standing: Standing::Free,
            ended: Vec::new(alloc),
        }
    }

    /// Before a segment of a ring of which it is not known what came before: its first event may carry a hold.
    pub fn later(alloc: Global) -> HoldReader
        ensures { known result ≡ nothing_known }
    {
        HoldReader {
            token: 0,
            standing: Standing::Unknown,
            ended: Vec::new(alloc),
        }
    }

    /// A hold begins here.
    fn begin(&mut self, at: u64, token: u64, grant: Option<Grant>) -> Result<(), HoldError>
        ensures { IsBegun (known self.old) at token grant result (known self.new) }
    {
        if token <= self.token {
            return Err(HoldError::NoHold(at));
        }
        self.token = token;
        self.standing = Standing::Held(grant);
        Ok(())
    }

    /// A grant.
    fn grant(&mut self, at: u64, token: u64, label: u64) -> Result<(), HoldError>
        ensures { IsStep (known self.old) at (Granted token label) result (known self.new) }
    {
        match self.standing {
            Standing::Unknown | Standing::Free => {
                self.begin(at, token, Some(Grant { label, from: at }))
            }
            Standing::Held(_) => Err(HoldError::NoHold(at)),
        }
    }

    /// An event that carries a hold.
    fn carry(&mut self, at: u64, token: u64) -> Result<(), HoldError>
        ensures { IsStep (known self.old) at (Carried token) result (known self.new) }
    {
        match self.standing {
            Standing::Unknown => self.begin(at, token, None),
            Standing::Held(_) if token == self.token => Ok(()),
            Standing::Free | Standing::Held(_) => Err(HoldError::NoHold(at)),
        }
    }

    /// The end of a hold.
    fn end(&mut self, at: u64, left: bool) -> Result<(), HoldError>
        ensures { IsStep (known self.old) at (Ended left) result (known self.new) }
    {
        match self.standing {
            Standing::Unknown | Standing::Free => Err(HoldError::NoHold(at)),
            Standing::Held(grant) => {
                let hold = Hold {
                    token: self.token,
                    grant,
                    end: Some(End { to: at, left }),
                };
                let Ok(()) = self.ended.push(hold) else {
                    return Err(HoldError::OutOfMemory);
                };
                self.standing = Standing::Free;
                Ok(())
            }
        }
    }

    /// An event that records no hold.
    fn go_on(&mut self)
        ensures { IsStep (known self.old) 0 Other (Ok tt) (known self.new) }
    {
        if let Standing::Unknown = self.standing {
            self.standing = Standing::Free;
        }
    }

    /// What an event records.
    fn event(&mut self, at: u64, sign: Sign) -> Result<(), HoldError>
        ensures { IsStep (known self.old) at sign result (known self.new) }
    {
        match sign {
            Sign::Granted { token, label } => self.grant(at, token, label),
            Sign::Carried { token } => self.carry(at, token),
            Sign::Ended { left } => self.end(at, left),
            Sign::Other => {
                self.go_on();
                Ok(())
            }
            Sign::Wrong => Err(HoldError::NoHold(at)),
        }
    }

    /// The ends at a place.
    fn ends(&mut self, at: u64, ends: Ends) -> Result<(), HoldError>
        ensures { (lefts : List Bool) → tally lefts ≡ ends
            → IsRead (known self.old) (ended at lefts) result (known self.new) }
    {
        match ends {
            Ends::Nothing => Ok(()),
            Ends::One(left) => self.end(at, left),
            Ends::Several => Err(HoldError::NoHold(at)),
        }
    }

    /// The next segment of the ring, which has this base. After an error the reader is of no use.
    pub(crate) fn add(
        &mut self,
        alloc: Global,
        base: &Base,
        ring: &SavedRing,
    ) -> Result<(), HoldError>
        ensures { IsRead (known self.old) (signs_of base.now (block_of ring.now)) result
            (known self.new) }
    {
        let table = ends_of(alloc, ring)?;
        for (i, event) in ring.events.iter().enumerate() {
            let at = place(base, i as u64);
            match self.ends(at, table[i]) {
                Ok(()) => {}
                Err(error) => return Err(error),
            }
            match self.event(at, sign_of(base, *event)) {
                Ok(()) => {}
                Err(error) => return Err(error),
            }
        }
        let last = ring.events.len();
        self.ends(place(base, last as u64), table[last])
    }

    /// The same with the next segment of the ring, which has this base.
    ///
    /// # Errors
    ///
    /// `NoHold` with the place, over all segments, of the first event or survey that fits no hold; `OutOfMemory`.
    pub fn with_segment(
        self,
        alloc: Global,
        base: &Base,
        ring: &SavedRing,
    ) -> Result<HoldReader, HoldError>
        ensures { IsSegmentRead (known self) (signs_of base.now (block_of ring.now)) result }
    {
        let mut reader = self;
        match reader.add(alloc, base, ring) {
            Ok(()) => Ok(reader),
            Err(error) => Err(error),
        }
    }

    /// All holds, in their order; the last may be open.
    pub fn holds(self) -> Result<Vec<Hold>, AllocError>
        ensures { IfOk result (λ holds. holds.items ≡ all_holds (known self)) }
    {
        let HoldReader {
            token,
            standing,
            mut ended,
        } = self;
        if let Standing::Held(grant) = standing {
            ended.push(Hold {
                token,
                grant,
                end: None,
            })?;
        }
        Ok(ended)
    }
}
