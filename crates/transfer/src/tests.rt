// What no clause says: which calls are made again, and what is told of one that failed.
ghost use Rattle.std.specs.Prelude.{◌≤◌, IfOk};

use super::{complain, read_whole, write_on};
use std::io;
use std::io::{Read, Write};
use std::test::Fail;

// An input or an output whose calls go by steps, the last one for all later calls: 0 to 9, so many bytes at most; i, interrupted by a signal; k, an error of that kind without a number; f, a failure.
#[derive(Drop)]
struct Stepped {
    steps: &'static [u8],
    bytes: &'static [u8],
}

impl Stepped {
    // How many of so many bytes the next call moves.
    fn step(&mut self, most: usize) -> io::Result<usize>
        ensures { IfOk result (λ n. n ≤ most) }
    {
        let Some((step, later)) = self.steps.split_first() else {
            return Ok(most);
        };
        if !later.is_empty() {
            self.steps = later;
        }
        match *step {
            b'i' => Err(io::Error::from_raw_os_error(4)),
            b'k' => Err(io::ErrorKind::Interrupted.into()),
            b'f' => Err(io::Error::from_raw_os_error(5)),
            digit => Ok(most.min(usize::from(digit).saturating_sub(48))),
        }
    }
}

impl Read for Stepped {
    fn read(&mut self, buf: &mut [u8]) -> io::Result<usize> {
        let bytes = self.bytes;
        let moved = self.step(buf.len().min(bytes.len()))?;
        buf[..moved].copy_from_slice(&bytes[..moved]);
        self.bytes = &bytes[moved..];
        Ok(moved)
    }
}

impl Write for Stepped {
    fn write(&mut self, buf: &[u8]) -> io::Result<usize> {
        self.step(buf.len())
    }

    fn flush(&mut self) -> io::Result<()> {
        Ok(())
    }
}

// Steps, how many bytes are then an input, and what is told.
const READS: [(&[u8], usize, &[u8]); 6] = [
    (b"iii3i2ii9", 6, b""),
    (b"1", 6, b""),
    (b"40", 4, b""),
    (b"9f", 0, b"it: Input/output error\n"),
    (b"i", 0, b"it: Interrupted system call\n"),
    (b"3k9", 0, b"it: operation interrupted\n"),
];

#[test]
fn reads(rt: HostRuntime) -> Result<(), Fail> {
    for (steps, count, told) in READS {
        let bytes = b"abcdef";
        let mut input = [0u8; 8];
        let mut errors = Vec::new(rt.alloc());
        let read = read_whole(
            &mut Stepped { steps, bytes },
            &mut input,
            &mut errors,
            b"it",
        );
        assert_eq!(rt; read.count, count);
        assert_eq!(rt; input[..count], bytes[..count]);
        assert_eq!(rt; errors.as_slice(), told);
    }
    Ok(())
}

// Steps, how many bytes are then written, and what is told where that is not all.
const WRITES: [(&[u8], usize, &[u8]); 5] = [
    (b"ii4i1i9", 8, b""),
    (b"1", 8, b""),
    (b"40", 4, b"it: Success\n"),
    (b"4f", 4, b"it: Input/output error\n"),
    (b"4k9", 4, b"it: operation interrupted\n"),
];

#[test]
fn writes(rt: HostRuntime) -> Result<(), Fail> {
    for (steps, count, told) in WRITES {
        let mut errors = Vec::new(rt.alloc());
        let stop = write_on(&mut Stepped { steps, bytes: b"" }, b"looping\n");
        if stop.cut_short(8) {
            complain(&mut errors, b"it", stop);
        }
        assert_eq!(rt; stop.count, count);
        assert_eq!(rt; errors.as_slice(), told);
    }
    Ok(())
}
