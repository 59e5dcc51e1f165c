// Inputs on both sides of their limit, and what a program says at its end.
use crate::{conclude, read_input};
use std::cell::RefCell;
use std::fmt::{Display, Write};
use std::io;
use std::io::{ErrorKind, Read};
use std::test::Fail;

#[test]
fn an_input_is_read_to_one_byte_beyond_its_limit(rt: HostRuntime) -> Result<(), Fail> {
    for (input, read) in [
        (b"".as_slice(), b"".as_slice()),
        (b"map", b"map"),
        (b"maps", b"maps"),
        (b"links", b"link"),
    ] {
        let bytes = read_input(rt.alloc(), input, 3)?;
        assert_eq!(rt; bytes.as_slice(), read);
    }
    Ok(())
}

// An input that gives one byte and then fails.
#[derive(Drop)]
struct Torn {
    given: bool,
}

impl Read for Torn {
    fn read(&mut self, buf: &mut [u8]) -> io::Result<usize> {
        if self.given {
            return Err(io::Error::from(ErrorKind::BrokenPipe));
        }
        self.given = true;
        let Some(byte) = buf.first_mut() else {
            return Ok(0);
        };
        *byte = 7;
        Ok(1)
    }
}

#[test]
fn an_input_that_fails_gives_no_bytes(rt: HostRuntime) {
    let error = read_input(rt.alloc(), Torn { given: false }, 3).err();
    assert_eq!(rt;
        error.map(|error| error.kind()),
        Some(ErrorKind::BrokenPipe)
    );
}

// A standard error that keeps what is written to it.
#[derive(Drop)]
struct Kept {
    text: RefCell<String>,
}

impl Eprint for Kept {
    fn eprint<D: Display + Drop>(&self, value: D) -> io::Result<()> {
        let Ok(mut text) = self.text.try_borrow_mut() else {
            return Err(io::Error::from(ErrorKind::Other));
        };
        write!(text, "{value}")?;
        Ok(())
    }

    fn eprintln<D: Display + Drop>(&self, value: D) -> io::Result<()> {
        self.eprint(format_args!("{value}\n"))
    }
}

#[test]
fn a_program_that_failed_says_why(rt: HostRuntime) -> Result<(), Fail> {
    let kept = Kept {
        text: RefCell::new(String::new(rt.alloc())),
    };
    let _done = conclude(&kept, "links", Ok::<(), &str>(()));
    let _failed = conclude(&kept, "walk", Err("no luck"));
    assert_eq!(rt; kept.text.into_inner().as_str(), "walk: no luck\n");
    Ok(())
}
