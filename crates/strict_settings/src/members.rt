//! The members of a settings document that nothing reads.

ghost use Rattle.std.specs.Prelude.{◌≡◌, map, option_map};
ghost use Rattle.json.specs.Value.{value_view, items_view, members_view};
ghost use Rattle.strict_settings.specs.Unread.{has_member, is_one_of, is_read, unread_among, plain, ring_names, seat_names, top_names, unread_in_items, unread_in_array, unread_in_ring, unread_in_seat, unread_in_top, unread_in};

use json::Value;

/// A member of an object: its name, and its value.
type Member<'a> = (&'a str, Value<'a>);

/// Whether some member has this name.
fn has_member(members: &[Member<'_>], name: &str) -> bool
    ensures { result ≡ has_member name.now (members_view members.now) }
{
    for member in members {
        if member.0 == name {
            return true;
        }
    }
    false
}

/// Whether a name is one of these.
fn is_one_of(names: &[&str], key: &str) -> bool
    ensures { result ≡ is_one_of (map (λ name. name.now) names.now) key.now }
{
    for name in names {
        if key == *name {
            return true;
        }
    }
    false
}

/// Whether the member of this name, which has these after it, is read where these names are.
fn is_read(names: &[&str], key: &str, later: &[Member<'_>]) -> bool
    ensures { result ≡ is_read (map (λ name. name.now) names.now) key.now (members_view later.now) }
{
    is_one_of(names, key) && !has_member(later, key)
}

/// The name of the first member that is not read where these names are, if there is one.
fn unread_among<'a>(names: &[&str], members: &[Member<'a>]) -> Option<&'a str>
    ensures { option_map (λ name. name.now) result
        ≡ unread_among (map (λ name. name.now) names.now) plain (members_view members.now) }
{
    for (i, member) in members.iter().enumerate() {
        if !is_read(names, member.0, &members[i + 1..]) {
            return Some(member.0);
        }
    }
    None
}

/// The first member of a ring that nothing reads.
fn unread_in_ring<'a>(ring: &Value<'a>) -> Option<&'a str>
    ensures { option_map (λ name. name.now) result ≡ unread_in_ring (value_view ring.now) }
{
    match ring {
        Value::Object(members) => unread_among(&["n", "k", "start"], members.as_slice()),
        _ => None,
    }
}

/// The first member of the rings that nothing reads.
fn unread_in_rings<'a>(rings: &Value<'a>) -> Option<&'a str>
    ensures { option_map (λ name. name.now) result
        ≡ unread_in_array unread_in_ring (value_view rings.now) }
{
    let Value::Array(rings) = rings else {
        return None;
    };
    for ring in rings {
        let found = unread_in_ring(ring);
        if found.is_some() {
            return found;
        }
    }
    None
}

/// The first member of a seat that nothing reads.
fn unread_in_seat<'a>(seat: &Value<'a>) -> Option<&'a str>
    ensures { option_map (λ name. name.now) result ≡ unread_in_seat (value_view seat.now) }
{
    let Value::Object(members) = seat else {
        return None;
    };
    if has_member(members.as_slice(), "script") {
        unread_among(&["script"], members.as_slice())
    } else {
        unread_among(&["seed", "actions"], members.as_slice())
    }
}

/// The first member of the workers that nothing reads.
fn unread_in_workers<'a>(workers: &Value<'a>) -> Option<&'a str>
    ensures { option_map (λ name. name.now) result
        ≡ unread_in_array unread_in_seat (value_view workers.now) }
{
    let Value::Array(workers) = workers else {
        return None;
    };
    for seat in workers {
        let found = unread_in_seat(seat);
        if found.is_some() {
            return found;
        }
    }
    None
}

/// The first member inside this member of the whole that nothing reads.
fn unread_inside<'a>(key: &str, value: &Value<'a>) -> Option<&'a str>
    ensures { option_map (λ name. name.now) result ≡ unread_in_top key.now (value_view value.now) }
{
    if key == "rings" {
        unread_in_rings(value)
    } else if key == "workers" {
        unread_in_workers(value)
    } else {
        unread_in_seat(value)
    }
}

/// The first member of the whole, or inside one of its members, that nothing reads.
fn unread_at_top<'a>(members: &[Member<'a>]) -> Option<&'a str>
    ensures { option_map (λ name. name.now) result
        ≡ unread_among top_names unread_in_top (members_view members.now) }
{
    for (i, member) in members.iter().enumerate() {
        if !is_read(
            &["rings", "workers", "injector"],
            member.0,
            &members[i + 1..],
        ) {
            return Some(member.0);
        }
        let found = unread_inside(member.0, &member.1);
        if found.is_some() {
            return found;
        }
    }
    None
}

/// The name of the first member of a settings document, in the order of its text, that nothing reads, if there is one: it is not one that
/// settings have there, or a later member of its object has the same name, which counts; or it is beside the script of a seat.
pub fn first_unread<'a>(document: &Value<'a>) -> Option<&'a str>
    ensures { option_map (λ name. name.now) result ≡ unread_in (value_view document.now) }
{
    match document {
        Value::Object(members) => unread_at_top(members.as_slice()),
        _ => None,
    }
}
