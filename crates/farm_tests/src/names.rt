//! The names by which these crates' callers know their calls and types. Nothing here is run: a name that is gone, or that
//! is elsewhere, is not compiled.

use ring_farm::{FarmError, Gate, Log, Open, Outcome, RingOutcome, run_farm};
use ring_settings::{
    Action, Field, Plan, RingCause, Role, SeatSetting, Settings, SettingsError, draw_plan, plans,
    read_settings,
};
use ring_text::{
    ReadError, Saved, SavedEvent, SavedRing, SavedSurvey, WriteFault, outcome_is_legal, read_saved,
    texts_are_apart, upgrade, write_outcome, write_report, write_saved,
};
