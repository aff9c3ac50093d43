//! Wrong checks of a chain of segments, each of which accepts a file that is refused, and a wrong digest.

ghost use Rattle.std.specs.Prelude.{◌≡◌, ◌≢◌, ◌≤◌, IfSome, false, length, take};
ghost use Rattle.segment_files.specs.Spelling.{digest_of};
ghost use Rattle.segment_files.specs.Chain.{IsRightAdd};

use segment_files::{Chain, DIGEST_DIGITS, SegmentError, digest};
use std::alloc::Global;

/// Begins the chain anew with a file, which is then taken on trust.
fn begin_anew(alloc: Global, chain: &mut Chain, bytes: &[u8], last: bool) -> bool {
    let mut anew = Chain::new();
    match anew.add(alloc, bytes, last) {
        Ok(()) => {
            *chain = anew;
            true
        }
        Err(_) => false,
    }
}

/// The number of a file is the next one: here a file is accepted over a gap, and the chain begins anew with it.
pub fn accepts_over_a_gap(
    alloc: Global,
    chain: &mut Chain,
    bytes: &[u8],
    last: bool,
) -> Option<Result<(), SegmentError>>
    ensures wrong { IfSome result
        (λ answer. IsRightAdd chain.old bytes.now last chain.new answer → ⊥) }
{
    match chain.add(alloc, bytes, last) {
        Err(SegmentError::Number) if begin_anew(alloc, chain, bytes, last) => Some(Ok(())),
        _ => None,
    }
}

/// The digest that a file has is that of the one before it: here another one is accepted.
pub fn accepts_another_digest(
    alloc: Global,
    chain: &mut Chain,
    bytes: &[u8],
    last: bool,
) -> Option<Result<(), SegmentError>>
    ensures wrong { IfSome result
        (λ answer. IsRightAdd chain.old bytes.now last chain.new answer → ⊥) }
{
    match chain.add(alloc, bytes, last) {
        Err(SegmentError::Behind) if begin_anew(alloc, chain, bytes, last) => Some(Ok(())),
        _ => None,
    }
}

/// The base of a ring is what came before it: here another one is accepted.
pub fn accepts_another_base(
    alloc: Global,
    chain: &mut Chain,
    bytes: &[u8],
    last: bool,
) -> Option<Result<(), SegmentError>>
    ensures wrong { IfSome result
        (λ answer. IsRightAdd chain.old bytes.now last chain.new answer → ⊥) }
{
    match chain.add(alloc, bytes, last) {
        Err(SegmentError::Base) if begin_anew(alloc, chain, bytes, last) => Some(Ok(())),
        _ => None,
    }
}

/// A ring begins as the file before left it: here it may begin otherwise.
pub fn accepts_another_start(
    alloc: Global,
    chain: &mut Chain,
    bytes: &[u8],
    last: bool,
) -> Option<Result<(), SegmentError>>
    ensures wrong { IfSome result
        (λ answer. IsRightAdd chain.old bytes.now last chain.new answer → ⊥) }
{
    match chain.add(alloc, bytes, last) {
        Err(SegmentError::Start) if begin_anew(alloc, chain, bytes, last) => Some(Ok(())),
        _ => None,
    }
}

/// Nothing is left out of a file after which others come: here the end of its journal is.
pub fn accepts_what_is_cut(
    alloc: Global,
    chain: &mut Chain,
    bytes: &[u8],
) -> Option<Result<(), SegmentError>>
    ensures wrong { IfSome result
        (λ answer. IsRightAdd chain.old bytes.now false chain.new answer → ⊥) }
{
    match chain.add(alloc, bytes, false) {
        Err(SegmentError::Unfinished) => match chain.add(alloc, bytes, true) {
            Ok(()) => Some(Ok(())),
            Err(_) => None,
        },
        _ => None,
    }
}

/// A file that follows is accepted: here it is refused for its number.
pub fn refuses_what_follows(
    alloc: Global,
    chain: &mut Chain,
    bytes: &[u8],
    last: bool,
) -> Option<Result<(), SegmentError>>
    ensures wrong { IfSome result
        (λ answer. IsRightAdd chain.old bytes.now last chain.old answer → ⊥) }
{
    match chain.add(alloc, bytes, last) {
        Ok(()) => Some(Err(SegmentError::Number)),
        Err(_) => None,
    }
}

/// The digest of a file is that of all its bytes: here only of its head, if that has another one.
pub fn digest_of_the_head_alone(bytes: &[u8], head: usize) -> [u8; DIGEST_DIGITS]
    requires within { head ≤ length bytes.now }
    requires apart { digest_of (take head bytes.now) ≢ digest_of bytes.now }
    ensures wrong { result ≡ digest_of bytes.now → ⊥ }
{
    digest(&bytes[..head])
}
