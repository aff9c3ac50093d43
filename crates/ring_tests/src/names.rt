//! The names by which these crates' callers know their calls and types. Nothing here is run: a name that is gone, or that
//! is elsewhere, is not compiled.

use ring_book::{
    Book, BookError, Entry, Event, GrantBook, GroupError, GroupReceipt, Idle, NotMade, Op, Receipt,
    Reply, Resource, Survey, Till,
};
use ring_lanes::{
    all_below, first_privileged, first_value_is_prefix, holds_past_first, privileged_count,
    privileged_mask, weight, wide_all_below, wide_count, wide_first, wide_first_value_is_prefix,
    wide_holds_past_first, wide_mask, wide_weight,
};
use ring_settle::{bound, follow, is_settled, lead, move_group, rest};
use ring_shared::{
    CloseFault, CloseReason, Closed, Draft, Locked, Log, Name, OpenFault, OpenReason, Ring, Seat,
};
use ring_state::{Params, ParamsError, RingState, StateError};
