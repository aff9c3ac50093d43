//! Wrong ways to serve lines in segments.

ghost use Rattle.std.specs.Prelude.{◌≡◌, ◌≢◌, ◌≤◌, ◌+◌, ◌∷◌, ℕ, List, [], true, Some, IfSome};
ghost use Rattle.disks.specs.Held.{Held};
ghost use Rattle.segment_files.specs.Spelling.{digest_of, DigestFits};
ghost use Rattle.ring_service.specs.Due.{is_due};
ghost use Rattle.ring_service.specs.Standings.{standing_of};
ghost use Rattle.line_service.specs.Segments.{segment_holds};
ghost use Rattle.ring_service.specs.Texts.{segment_text};
ghost use Rattle.wrong_commands.specs.Nowhere.{LeadNowhere, EndsNowhere};

use disks::Disk;
use endless_ring::EndlessRing;
use line_service::{OpenSegment, begin_segment, close_segment};
use ring_book::Till;
use ring_model::Base;
use ring_service::{ChainRules, Journal, RingService, Served, serve};
use segment_files::{DIGEST_DIGITS, digest};
use std::alloc::Global;
use std::io::Read;

/// The segment in which lines were served, and their answers.
#[derive(Drop)]
pub struct Told<W> {
    pub segment: OpenSegment<W>,
    pub out: Vec<u8>,
}

/// No line is answered in a segment that is due: here lines are, and serving continues. It gives up unless the first is granted.
pub fn answers_in_a_segment_that_is_due<D: Disk, I: Read>(
    alloc: Global,
    served: &mut Served,
    disk: &mut D,
    first: OpenSegment<D::Grown>,
    rules: ChainRules<'_>,
    input: &mut I,
) -> Option<Told<D::Grown>>
where
    D::Grown: Drop,
    requires { is_due (Some rules.limit) served.old ≡ true }
    ensures wrong { IfSome result (λ told. LeadNowhere D.Grown.contents D.holds rules.entry
        served.old disk.old first served.new disk.new told.segment (I.remaining input.old)
        (I.remaining input.new) (Some told.out.items)) }
{
    let OpenSegment {
        number,
        name,
        writer,
    } = first;
    let mut out = Vec::new(alloc);
    let mut journal = Some(Journal {
        name: name.as_str(),
        writer,
    });
    match serve(
        alloc,
        served,
        disk,
        &mut journal,
        rules.permits,
        input,
        &mut out,
    ) {
        Ok(()) => {}
        Err(_) => return None,
    }
    if out.is_empty() || out[0] != b'g' {
        return None;
    }
    let Some(Journal { writer, .. }) = journal else {
        return None;
    };
    Some(Told {
        segment: OpenSegment {
            number,
            name,
            writer,
        },
        out,
    })
}

/// Ends the segment, and begins the next one with these rings and after a file of this digest.
fn cut<D: Disk>(
    alloc: Global,
    served: &mut Served,
    next: Served,
    disk: &mut D,
    first: OpenSegment<D::Grown>,
    behind: [u8; DIGEST_DIGITS],
    rules: ChainRules<'_>,
) -> Option<OpenSegment<D::Grown>>
where
    D::Grown: Drop,
    requires { DigestFits behind }
    ensures number { IfSome result (λ end. end.number ≡ first.number + 1) }
    ensures rings { IfSome result (λ _. served.new ≡ next) }
    ensures journal { IfSome result (λ end. (bytes : List ℕ) (held : Held)
        → segment_holds D.Grown.contents first ≡ Some bytes → D.holds disk.old ≡ Some held
        → segment_holds D.Grown.contents end ≡ Some (segment_text end.number behind next)) }
{
    if rules.limit == 0 {
        return None;
    }
    if first.number == u64::MAX {
        return None;
    }
    let number = first.number + 1;
    let service = RingService::in_segment(alloc, next, rules, number);
    match close_segment(disk, first) {
        Ok(()) => {}
        Err(_) => return None,
    }
    match begin_segment(alloc, disk, &service, number, behind, rules.files) {
        Ok(end) => {
            *served = service.into_rings();
            Some(end)
        }
        Err(_) => None,
    }
}

/// The digest in the next file is that of the whole file before: here of other bytes, such as only its head.
pub fn names_the_digest_of_the_head_alone<D: Disk>(
    alloc: Global,
    served: &mut Served,
    disk: &mut D,
    first: OpenSegment<D::Grown>,
    rules: ChainRules<'_>,
    head: &[u8],
) -> Option<OpenSegment<D::Grown>>
where
    D::Grown: Drop,
    requires due { is_due (Some rules.limit) served.old ≡ true }
    requires apart { (bytes : List ℕ) → segment_holds D.Grown.contents first ≡ Some bytes
        → digest_of head.now ≢ digest_of bytes }
    ensures wrong { IfSome result (EndsNowhere D.Grown.contents D.holds rules.entry served.old
        disk.old first served.new disk.new) }
{
    let next = match served.next(alloc) {
        Ok(next) => next,
        Err(_) => return None,
    };
    match cut(alloc, served, next, disk, first, digest(head), rules) {
        Some(end) => Some(end),
        None => None,
    }
}

/// The base of a ring counts the grants of its segments before: here it forgets them.
pub fn ends_with_a_base_that_forgets_the_grants<D: Disk>(
    alloc: Global,
    served: &mut Served,
    disk: &mut D,
    first: OpenSegment<D::Grown>,
    rules: ChainRules<'_>,
    ring: &EndlessRing,
) -> Option<OpenSegment<D::Grown>>
where
    D::Grown: Drop,
    requires due { is_due (Some rules.limit) served.old ≡ true }
    requires one { served.old ≡ standing_of ring.now ∷ [] }
    requires grants { 1 ≤ ring.now.base.grants }
    ensures wrong { IfSome result (EndsNowhere D.Grown.contents D.holds rules.entry served.old
        disk.old first served.new disk.new) }
{
    let behind = match first.writer.digest() {
        Ok(behind) => behind,
        Err(_) => return None,
    };
    let Some(ring) = forgetful(alloc, ring) else {
        return None;
    };
    let mut next = Served::none(alloc);
    match next.add(ring) {
        Ok(()) => {}
        Err(_) => return None,
    }
    match cut(alloc, served, next, disk, first, behind, rules) {
        Some(end) => Some(end),
        None => None,
    }
}

/// The ring with its next segment, whose base forgets the grants.
fn forgetful(alloc: Global, ring: &EndlessRing) -> Option<EndlessRing>
    ensures { IfSome result (λ next. next.base.grants ≡ 0) }
{
    let base = Base {
        events: ring.base().events,
        grants: 0,
        amount: ring.base().amount,
        calm: 0,
    };
    let Ok(segment) = ring.segment().successor(alloc, Till::new()) else {
        return None;
    };
    if !base.has_room() {
        return None;
    }
    Some(EndlessRing::after(base, segment))
}

/// The next segment has no call of its own yet: here one is made before it begins, so that it begins one call late.
pub fn begins_one_call_late<D: Disk>(
    alloc: Global,
    served: &mut Served,
    disk: &mut D,
    first: OpenSegment<D::Grown>,
    rules: ChainRules<'_>,
    ring: &EndlessRing,
    machine: u32,
) -> Option<OpenSegment<D::Grown>>
where
    D::Grown: Drop,
    requires due { is_due (Some rules.limit) served.old ≡ true }
    requires one { served.old ≡ standing_of ring.now ∷ [] }
    ensures wrong { IfSome result (EndsNowhere D.Grown.contents D.holds rules.entry served.old
        disk.old first served.new disk.new) }
{
    let behind = match first.writer.digest() {
        Ok(behind) => behind,
        Err(_) => return None,
    };
    let Some(ring) = called_already(alloc, ring, machine) else {
        return None;
    };
    let mut next = Served::none(alloc);
    match next.add(ring) {
        Ok(()) => {}
        Err(_) => return None,
    }
    match cut(alloc, served, next, disk, first, behind, rules) {
        Some(end) => Some(end),
        None => None,
    }
}

/// The ring with its next segment, in which a call was made.
fn called_already(alloc: Global, ring: &EndlessRing, machine: u32) -> Option<EndlessRing>
    ensures { IfSome result (λ next. next.ring.book.history ≢ []) }
{
    let Ok(mut next) = ring.next(alloc) else {
        return None;
    };
    match next.pass(0, machine, 0) {
        Ok(_) => Some(next),
        Err(_) => None,
    }
}
