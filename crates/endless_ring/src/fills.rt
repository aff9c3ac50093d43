//! Pieces of a saved text, written into bytes of a caller. A piece that has no room there is counted, and not written. Nothing
//! takes memory, and nothing fails.

ghost use Rattle.std.specs.Prelude.{◌≡◌, ◌≤◌, ◌++◌, ◌∷◌, [], length, map};
ghost use Rattle.std.specs.List.{flat_map, AllByRecursion};
ghost use Rattle.std.specs.Fmt.{decimal};
ghost use Rattle.text_lines.specs.Spelling.{spaced, ended, stop_text};
ghost use Rattle.saved_history.specs.Spelling.{ring_line, start_line, event_line, survey_line, EventFits, SurveyFits};
ghost use Rattle.saved_history.specs.Versions.{latest_version};
ghost use Rattle.ring_state.specs.Sizes.{IsRingState};
ghost use Rattle.one_thread_ring.specs.SavedOf.{saved_event, saved_survey};
ghost use Rattle.one_thread_ring.specs.Texts.{client_surveys};
ghost use Rattle.endless_ring.specs.Filling.{Fills};

use one_thread_ring::{Client, saved_event, saved_survey};
use ring_model::{Event, Survey};
use ring_state::RingState;
use saved_history::{event_line, survey_line};
use text_lines::Line;

/// Puts the bytes at this place, if there is room for them; returns the place after them.
pub(crate) fn put(out: &mut [u8], place: usize, bytes: &[u8]) -> usize
    ensures { Fills out.old out.new place result bytes.now }
{
    if place <= out.len() && bytes.len() <= out.len() - place {
        out[place..place + bytes.len()].copy_from_slice(bytes);
    }
    place.saturating_add(bytes.len())
}

/// Puts a word, and a number that ends the line.
pub(crate) fn put_word(out: &mut [u8], place: usize, word: &[u8], number: u64) -> usize
    ensures { Fills out.old out.new place result (word.now ++ ended number) }
{
    let mut line = Line::new();
    line.byte(b'\n');
    line.number(number);
    let behind = put(out, place, word);
    put(out, behind, line.as_bytes())
}

/// The last two numbers on a line.
pub(crate) fn last_two(number: u64, last: u64) -> Line
    ensures is { result ≡ spaced number ++ ended last }
    ensures short { length result ≤ 42 }
{
    let mut line = Line::new();
    line.byte(b'\n');
    line.number(last);
    line.byte(b' ');
    line.number(number);
    line
}

/// The numbers on the first line of a ring: its place in the text, its number of machines and its number of values.
fn size_line(index: u32, n: u32, k: u32) -> Line
    ensures { result ≡ spaced index ++ (spaced n ++ ended k) }
{
    let mut line = last_two(n as u64, k as u64);
    line.byte(b' ');
    line.number(index as u64);
    line
}

/// Puts that line.
pub(crate) fn put_size(out: &mut [u8], place: usize, index: u32, start: &RingState) -> usize
    ensures written { Fills out.old out.new place result
        (ring_line index (length start.now.values) start.now.k) }
    ensures ring { IsRingState start.now }
{
    let size = start.params();
    let behind = put(out, place, b"ring ");
    put(out, behind, size_line(index, size.n(), size.k()).as_bytes())
}

/// The byte after a number that has this many after it on its line.
fn stop(left: u32) -> u8
    ensures { result ∷ [] ≡ stop_text (32 ∷ []) (10 ∷ []) left }
{
    match left {
        0 => b'\n',
        _ => b' ',
    }
}

/// Puts a number that has this many after it on its line.
fn put_number(out: &mut [u8], place: usize, number: u32, left: u32) -> usize
    ensures { Fills out.old out.new place result
        (decimal number ++ stop_text (32 ∷ []) (10 ∷ []) left) }
{
    let mut line = Line::new();
    line.byte(stop(left));
    line.number(number as u64);
    put(out, place, line.as_bytes())
}

/// Puts the line of the values that a ring started from.
pub(crate) fn put_start(out: &mut [u8], place: usize, start: &RingState) -> usize
    ensures { Fills out.old out.new place result (start_line start.now.values) }
{
    let n = start.params().n();
    let mut behind = put(out, place, b"start ");
    for i in 0..n {
        behind = put_number(out, behind, start.get(i), n - i - 1);
    }
    behind
}

/// Puts a line for each event.
pub(crate) fn put_events(out: &mut [u8], place: usize, history: &[Event]) -> usize
    ensures written { Fills out.old out.new place result
        (flat_map event_line (map saved_event history.now)) }
    ensures fits { AllByRecursion (EventFits latest_version) (map saved_event history.now) }
{
    let mut behind = place;
    for event in history {
        behind = put(out, behind, event_line(saved_event(*event)).as_bytes());
    }
    behind
}

/// Puts a line for each of these surveys of a seat.
fn put_surveys(out: &mut [u8], place: usize, seat: u32, surveys: &[Survey]) -> usize
    ensures written { Fills out.old out.new place result
        (flat_map survey_line (map (saved_survey seat) surveys.now)) }
    ensures fits { AllByRecursion SurveyFits (map (saved_survey seat) surveys.now) }
{
    let mut behind = place;
    for survey in surveys {
        behind = put(
            out,
            behind,
            survey_line(saved_survey(seat, *survey)).as_bytes(),
        );
    }
    behind
}

/// Puts a line for each survey of these clients, client by client.
pub(crate) fn put_clients(out: &mut [u8], place: usize, clients: &[Client]) -> usize
    ensures written { Fills out.old out.new place result
        (flat_map survey_line (flat_map client_surveys clients.now)) }
    ensures fits { AllByRecursion SurveyFits (flat_map client_surveys clients.now) }
{
    let mut behind = place;
    for client in clients {
        behind = put_surveys(out, behind, client.number(), client.surveys());
    }
    behind
}
