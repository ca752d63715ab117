//! What is said of refusals, and the statuses.

use oberon_main::{CountedWriter, Error, PlayEnd, refuse, status};
use std::alloc::AllocError;
use std::test::Fail;

#[test]
fn statuses(rt: HostRuntime) -> Result<(), Fail> {
    let rows: [(Error, u8, &[u8]); 7] = [
        (Error::NotAStore, 3, b"not a store\n"),
        (Error::Damaged(7), 3, b"damaged 7\n"),
        (Error::NoMemory, 5, b"memory\n"),
        (Error::Fault, 4, b"fault\n"),
        (Error::MustReopen, 4, b"fault\n"),
        (Error::TooSmall, 4, b"fault\n"),
        (Error::Worn, 4, b"fault\n"),
    ];
    for (error, wanted, line) in rows {
        let mut written = Vec::new(rt.alloc());
        let status = refuse(&mut CountedWriter::new(&mut written), &error);
        assert!(rt; status == wanted && written.as_slice() == line);
    }
    let rows = [
        (PlayEnd::Done, 0),
        (PlayEnd::Memory, 5),
        (PlayEnd::Fault, 4),
        (PlayEnd::Input, 4),
        (PlayEnd::Output, 4),
    ];
    for (end, wanted) in rows {
        assert!(rt; status(&end) == wanted);
    }
    Ok(())
}

/// The error as a text, for programs that print it.
#[test]
fn texts(rt: HostRuntime) -> Result<(), AllocError> {
    let rows: [(Error, &str); 7] = [
        (Error::NotAStore, "not a store"),
        (Error::Damaged(7), "damaged 7"),
        (Error::NoMemory, "memory"),
        (Error::Fault, "fault"),
        (Error::MustReopen, "the store must be opened again"),
        (Error::TooSmall, "too small"),
        (Error::Worn, "worn"),
    ];
    for (error, wanted) in rows {
        let text = format!(in rt.alloc(); "{error}")?;
        assert!(rt; text.as_str() == wanted);
    }
    Ok(())
}
