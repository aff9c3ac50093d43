//! A chain of three files: the two rings of the example of journals, a corruption, and a ring more in the last file, whose
//! end is cut. The digests are those of another program.

use ring_model::Base;
use segment_files::{
    Chain, ChainSums, DIGEST_DIGITS, SegmentError, SegmentHead, digest, digits, put_head, read_head,
};
use std::test::Fail;

const NONE: &str = "0000000000000000000000000000000000000000000000000000000000000000";

pub const FIRST: &str = "ringsegment 1 1 2\n\
    behind 0000000000000000000000000000000000000000000000000000000000000000\n\
    base 0 0 0 0\n\
    base 0 0 0 0\n\
    ringjournal 1\n\
    ringfarm 2\n\
    ring 0 3 3\n\
    start 0 2 0\n\
    end 0\n\
    ring 1 4 4\n\
    start 0 2 1 0\n\
    end 0\n\
    done 2\n\
    0 p 0 0 5 g 1 5\n\
    0 s 1 1 2 1 1 3\n\
    1 m 0 1 2 2 1 2\n\
    1 m 0 0 2 1 2 4\n\
    1 m 0 3 2 0 3 6\n";

const FIRST_DIGEST: &str = "3e0fee3e8672fa1b3f3444a4d3bcbf61999e2b7c43ecb4a5a92a1cd9d9e46239";

const SECOND: &str = "ringsegment 1 2 2\n\
    behind 3e0fee3e8672fa1b3f3444a4d3bcbf61999e2b7c43ecb4a5a92a1cd9d9e46239\n\
    base 1 1 5 1\n\
    base 3 3 6 3\n\
    ringjournal 1\n\
    ringfarm 2\n\
    ring 0 3 3\n\
    start 1 2 0\n\
    end 0\n\
    ring 1 4 4\n\
    start 1 0 1 1\n\
    end 0\n\
    done 2\n\
    0 c 0 1 0 2\n\
    0 p 0 1 4 g 1 4\n";

const SECOND_DIGEST: &str = "fc022e386e328ac620106ec1596737796121f60f178f835f0fe1b03d5a7506e3";

const THIRD: &str = "ringsegment 1 3 3\n\
    behind fc022e386e328ac620106ec1596737796121f60f178f835f0fe1b03d5a7506e3\n\
    base 3 2 9 1\n\
    base 3 3 6 3\n\
    base 0 0 0 0\n\
    ringjournal 1\n\
    ringfarm 2\n\
    ring 0 3 3\n\
    start 1 1 0\n\
    end 0\n\
    ring 1 4 4\n\
    start 1 0 1 1\n\
    end 0\n\
    ring 2 2 2\n\
    start 0 0\n\
    end 0\n\
    done 3\n\
    2 p 0 0 1 g 1 1\n\
    0 p 0 2";

const THIRD_DIGEST: &str = "2244ec08b1b29a5f67def1883062ad99864f287154d1166f1217cb72a467fdc1";

/// The digits of a digest.
fn digits_of(text: &str) -> [u8; DIGEST_DIGITS] {
    let mut found = [b'0'; DIGEST_DIGITS];
    for (i, digit) in text.as_bytes().iter().enumerate() {
        if i < DIGEST_DIGITS {
            found[i] = *digit;
        }
    }
    found
}

#[test]
fn digests_are_those_of_another_program(rt: HostRuntime) {
    let abc = "ba7816bf8f01cfea414140de5dae2223b00361a396177a9cb410ff61f20015ad";
    assert_eq!(rt; digest(b"abc"), digits_of(abc));
    assert_eq!(rt; digest(FIRST.as_bytes()), digits_of(FIRST_DIGEST));
    let mut bytes = [0u8; 32];
    bytes[0] = 0xba;
    bytes[31] = 0x0d;
    let text = "ba0000000000000000000000000000000000000000000000000000000000000d";
    assert_eq!(rt; digits(&bytes), digits_of(text));
}

#[test]
fn a_head_is_read_and_written(rt: HostRuntime) -> Result<(), Fail> {
    let Ok((head, rest)) = read_head(rt.alloc(), SECOND.as_bytes()) else {
        panic!(rt; "refused");
    };
    assert!(rt; head.number == 2 && head.behind == digits_of(FIRST_DIGEST));
    let base = |events, grants, amount, calm| Base {
        events,
        grants,
        amount,
        calm,
    };
    assert_eq!(rt;
        head.bases.as_slice(),
        [base(1, 1, 5, 1), base(3, 3, 6, 3)].as_slice()
    );
    assert!(rt; rest.starts_with(b"ringjournal 1\nringfarm 2\n"));
    let written = SECOND.len() - rest.len();
    let mut bases = Vec::new(rt.alloc());
    bases.push(base(1, 1, 5, 1))?;
    bases.push(base(3, 3, 6, 3))?;
    let behind = digest(FIRST.as_bytes());
    let made = SegmentHead {
        number: 2,
        behind,
        bases,
    };
    let mut out = Vec::new(rt.alloc());
    assert!(rt; put_head(&mut out, &made).is_ok());
    assert!(rt; written <= SECOND.len() && out.as_slice() == &SECOND.as_bytes()[..written]);
    let read = read_head(rt.alloc(), &FIRST.as_bytes()[..116]);
    assert!(rt; matches!(read, Ok((_, rest)) if rest.is_empty()));
    Ok(())
}

#[test]
fn a_chain_is_checked(rt: HostRuntime) {
    let alloc = rt.alloc();
    let sums = |first, segments, rings, sums: [u64; 4], behind| ChainSums {
        first,
        segments,
        rings,
        events: sums[0],
        granted: sums[1],
        corrupted: sums[2],
        surveys: sums[3],
        behind: digits_of(behind),
    };
    let mut chain = Chain::new();
    assert!(rt; chain.sums() == sums(0, 0, 0, [0, 0, 0, 0], NONE));
    assert!(rt; chain.digest() == digits_of(NONE));
    assert!(rt; chain.add(alloc, FIRST.as_bytes(), false).is_ok());
    assert!(rt; chain.sums() == sums(1, 1, 2, [4, 4, 0, 1], NONE));
    assert!(rt; chain.digest() == digits_of(FIRST_DIGEST));
    assert!(rt; chain.add(alloc, SECOND.as_bytes(), false).is_ok());
    assert!(rt; chain.sums() == sums(1, 2, 2, [6, 5, 1, 1], FIRST_DIGEST));
    let unfinished = chain.add(alloc, THIRD.as_bytes(), false);
    assert!(rt; matches!(unfinished, Err(SegmentError::Unfinished)));
    assert!(rt; chain.sums() == sums(1, 2, 2, [6, 5, 1, 1], FIRST_DIGEST));
    assert!(rt; chain.add(alloc, THIRD.as_bytes(), true).is_ok());
    assert!(rt; chain.sums() == sums(1, 3, 3, [7, 6, 1, 1], SECOND_DIGEST));
    assert!(rt; chain.digest() == digits_of(THIRD_DIGEST));
    // the first file is gone: the second one is taken on trust
    let mut rest = Chain::new();
    assert!(rt; rest.add(alloc, SECOND.as_bytes(), false).is_ok());
    assert!(rt; rest.add(alloc, THIRD.as_bytes(), true).is_ok());
    assert!(rt; rest.sums() == sums(2, 2, 3, [7, 6, 1, 0], SECOND_DIGEST));
}
