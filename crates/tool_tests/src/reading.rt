//! Reading up to a limit, from readers that give little, too much, or fail.

use std::io::ErrorKind;
use std::process::Abort;
use std::test::Fail;
use test_files::Giver;
use tool_parts::reading::{ReadFault, read_limited};

/// Reads the text, a number of bytes at a time, and compares.
fn expect_bytes<R: Abort + AllocGlobal>(rt: &R, text: &[u8], at_most: usize, limit: u64) {
    let mut reader = Giver {
        at_most,
        ..Giver::new(text)
    };
    match read_limited(rt.alloc(), &mut reader, limit) {
        Ok(bytes) => assert_eq!(rt; bytes.as_slice(), text, "{at_most} at a time"),
        Err(fault) => panic!(rt; "{fault:?} at {at_most} at a time"),
    }
}

/// Reads the text, a number of bytes at a time, and compares the refusal and how much was read until it came.
fn expect_refusal<R: Abort + AllocGlobal>(
    rt: &R,
    reader: &mut Giver<'_>,
    limit: u64,
    fault: ReadFault,
    given: usize,
) {
    match read_limited(rt.alloc(), reader, limit) {
        Ok(_) => panic!(rt; "not refused"),
        Err(met) => assert_eq!(rt; met, fault),
    }
    assert_eq!(rt; reader.given, given);
}

#[test]
fn all_bytes_are_read_however_they_come(rt: HostRuntime) -> Result<(), Fail> {
    for at_most in [1, 2, 5, 100] {
        expect_bytes(&rt, b"", at_most, 10);
        expect_bytes(&rt, b"token ring", at_most, 1000);
        // Just as many as the limit.
        expect_bytes(&rt, b"token ring", at_most, 10);
    }
    expect_bytes(&rt, b"", 1, 0);
    let mut long = Vec::with_capacity(rt.alloc(), 20_000)?;
    for i in 0..20_000u32 {
        long.push((i % 251) as u8)?;
    }
    for at_most in [1, 8191, 8192, 8193, 20_000] {
        expect_bytes(&rt, long.as_slice(), at_most, 20_000);
        expect_bytes(&rt, long.as_slice(), at_most, u64::MAX);
    }
    Ok(())
}

#[test]
fn one_byte_over_the_limit_ends_it(rt: HostRuntime) -> Result<(), Fail> {
    for at_most in [1, 3, 100] {
        for limit in 0..10 {
            let mut reader = Giver {
                at_most,
                ..Giver::new(b"token ring")
            };
            expect_refusal(
                &rt,
                &mut reader,
                limit,
                ReadFault::TooLarge,
                limit as usize + 1,
            );
        }
    }
    // An error after that byte is not met.
    let mut reader = Giver {
        error: Some(ErrorKind::BrokenPipe),
        ..Giver::new(b"token")
    };
    expect_refusal(&rt, &mut reader, 4, ReadFault::TooLarge, 5);
    assert_eq!(rt; reader.errors, 0);
    Ok(())
}

#[test]
fn the_first_error_of_a_read_ends_it(rt: HostRuntime) -> Result<(), Fail> {
    for kind in [
        ErrorKind::BrokenPipe,
        ErrorKind::Interrupted,
        ErrorKind::OutOfMemory,
        ErrorKind::UnexpectedEof,
    ] {
        for at_most in [1, 3, 100] {
            let mut reader = Giver {
                at_most,
                error: Some(kind),
                ..Giver::new(b"token")
            };
            expect_refusal(&rt, &mut reader, 5, ReadFault::Failed, 5);
            assert_eq!(rt; reader.errors, 1);
        }
    }
    Ok(())
}

#[test]
fn a_limit_of_four_bytes(rt: HostRuntime) {
    expect_bytes(&rt, b"ring", usize::MAX, 4);
    let mut reader = Giver::new(b"rings");
    expect_refusal(&rt, &mut reader, 4, ReadFault::TooLarge, 5);
    for kind in [ErrorKind::BrokenPipe, ErrorKind::Interrupted] {
        let mut reader = Giver {
            error: Some(kind),
            ..Giver::new(b"ri")
        };
        expect_refusal(&rt, &mut reader, 4, ReadFault::Failed, 2);
    }
}
