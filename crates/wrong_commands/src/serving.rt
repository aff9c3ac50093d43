//! A wrong way to serve lines.

ghost use Rattle.std.specs.Prelude.{[], true, Some, IfSome};
ghost use Rattle.ring_service.specs.Permits.{terms_of};
ghost use Rattle.ring_service.specs.Recovered.{AnsweredCallsAreRecovered};
ghost use Rattle.ring_service.specs.Serving.{ServesAll};

use disks::Disk;
use ring_service::{Journal, Permits, Served, serve};
use std::alloc::Global;
use std::io::Read;

/// No answer leaves whose call is not in the journal: here all leave, and the journal has none. It gives up unless the first
/// line is granted.
pub fn answers_before_the_journal<D: Disk, I: Read>(
    alloc: Global,
    served: &mut Served,
    disk: &mut D,
    name: &str,
    permits: Permits<'_>,
    input: &mut I,
    journal: &mut Vec<u8>,
) -> Option<Vec<u8>>
    ensures wrong { IfSome result (λ out. ServesAll (terms_of (Some name.now) permits.entry)
        served.old served.new (D.holds disk.old) (D.holds disk.new) (I.remaining input.old)
        (I.remaining input.new)
        (record { journal = Some journal.old.items; out = Some [] })
        (record { journal = Some journal.new.items; out = Some out.items }) → ⊥) }
    ensures lost { IfSome result (λ out.
        AnsweredCallsAreRecovered (terms_of (Some name.now) permits.entry)
        served.old served.new (D.holds disk.old) (D.holds disk.new) (I.remaining input.old)
        (I.remaining input.new)
        (record { journal = Some journal.old.items; out = Some [] })
        (record { journal = Some journal.new.items; out = Some out.items }) → ⊥) }
{
    let mut out = Vec::new(alloc);
    let mut kept = Some(Journal {
        name,
        writer: Vec::new(alloc),
    });
    match serve(alloc, served, disk, &mut kept, permits, input, &mut out) {
        Ok(()) => {}
        Err(_) => return None,
    }
    if out.is_empty() || out[0] != b'g' {
        return None;
    }
    Some(out)
}
