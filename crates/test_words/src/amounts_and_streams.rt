//! The texts of faults and of amounts, and streams of which each failed call is counted.

use money::{Cents, Fault, Tallied, cents_text, write_cents, write_parts, write_whole};
use std::alloc::{AllocError, Global};
use std::io;
use std::io::{ErrorKind, Read, Write};
use std::process::Abort;

/// Takes three bytes a call at most, and from some call on fails or takes none.
#[derive(Drop)]
struct Halting {
    taken: Vec<u8>,
    calls_left: u32,
    fails: bool,
}

impl Write for Halting {
    fn write(&mut self, buf: &[u8]) -> io::Result<usize> {
        if self.calls_left == 0 {
            return if self.fails {
                Err(ErrorKind::Other.into())
            } else {
                Ok(0)
            };
        }
        self.calls_left -= 1;
        let count = buf.len().min(3);
        self.taken.extend_from_slice(&buf[..count])?;
        Ok(count)
    }

    fn flush(&mut self) -> io::Result<()> {
        if self.calls_left == 0 {
            Err(ErrorKind::Other.into())
        } else {
            Ok(())
        }
    }
}

fn halts_after(alloc: Global, calls_left: u32, fails: bool) -> Tallied<Halting> {
    Tallied::new(Halting {
        taken: Vec::new(alloc),
        calls_left,
        fails,
    })
}

/// A writer that halted after these calls took this text, and one failure is counted where it halted before the third.
fn has_taken(rt: &impl Abort, writer: Tallied<Halting>, calls: u32, text: &str) {
    assert!(rt; writer.failures() == u64::from(calls < 3));
    assert!(rt;
        writer.into_inner().taken.as_slice() == text.as_bytes(),
        "after {calls} calls"
    );
}

fn cents(rt: &impl Abort, amount: i64) -> Cents {
    Cents::new(amount).expect(rt, "an amount of money")
}

/// Gives one byte, then fails once, then is at its end.
#[derive(Drop)]
struct Hiccup(u32);

impl Read for Hiccup {
    fn read(&mut self, buf: &mut [u8]) -> io::Result<usize> {
        self.0 = self.0.saturating_add(1);
        if self.0 == 2 {
            return Err(ErrorKind::Other.into());
        }
        if self.0 > 2 || buf.is_empty() {
            return Ok(0);
        }
        buf[0] = b'x';
        Ok(1)
    }
}

#[test]
fn faults_have_messages(rt: HostRuntime) {
    for (fault, message) in [
        (Fault::from(AllocError), "out of memory"),
        (Fault::Size, "a size limit is reached"),
        (Fault::Disk, "the disk failed"),
        (Fault::Stopped, "the store is stopped"),
    ] {
        let printed = format!(in rt.alloc(); "{fault}").expect(&rt, "memory");
        assert!(rt; printed.as_str() == message);
    }
}

#[test]
fn every_amount_has_a_text(rt: HostRuntime) {
    for (cents, text) in [
        (0, "0.00"),
        (-5, "-0.05"),
        (70, "0.70"),
        (-1234, "-12.34"),
        (i128::MAX, "1701411834604692317316873037158841057.27"),
        (i128::MIN, "-1701411834604692317316873037158841057.28"),
    ] {
        assert!(rt; cents_text(cents).as_slice() == text.as_bytes());
    }
}

fn stands_as(rt: &impl Abort, alloc: Global, value: i64, width: usize, text: &str) {
    let mut writer = Tallied::new(Vec::new(alloc));
    assert!(rt; write_cents(&mut writer, cents(rt, value), width).is_ok());
    assert!(rt; writer.failures() == 0);
    assert!(rt;
        writer.into_inner().as_slice() == text.as_bytes(),
        "at {value} in {width}"
    );
}

#[test]
fn amounts_stand_right_in_their_width(rt: HostRuntime) {
    for (value, width, text) in [
        (-1234, 1, "-12.34"),
        (-1234, 8, "  -12.34"),
        (-1234, 14, "        -12.34"),
        (1234, 40, "                                   12.34"),
        (-5, 1, "-0.05"),
        (0, 0, "0.00"),
        (70, 5, " 0.70"),
        (999_999_999_999, 14, " 9999999999.99"),
        (-999_999_999_999, 14, "-9999999999.99"),
    ] {
        stands_as(&rt, rt.alloc(), value, width, text);
    }
}

/// Writes an amount by this writer, which halts after these calls.
fn amount_stops(rt: &impl Abort, mut writer: Tallied<Halting>, calls: u32, text: &str) {
    let written = write_cents(&mut writer, cents(rt, -1234), 8);
    assert!(rt; written.is_ok() == (calls == 3));
    has_taken(rt, writer, calls, text);
}

#[test]
fn an_amount_stops_at_the_call_that_fails(rt: HostRuntime) {
    for (calls, text) in [(0, ""), (1, "  "), (2, "  -12"), (3, "  -12.34")] {
        amount_stops(&rt, halts_after(rt.alloc(), calls, true), calls, text);
        amount_stops(&rt, halts_after(rt.alloc(), calls, false), calls, text);
    }
}

fn whole_stops(rt: &impl Abort, mut writer: Tallied<Halting>, calls: u32, text: &str) {
    let written = write_whole(&mut writer, b"abcdefg");
    assert!(rt; written.is_ok() == (calls == 3));
    has_taken(rt, writer, calls, text);
}

#[test]
fn a_stopped_write_is_counted(rt: HostRuntime) {
    for (calls, text) in [(0, ""), (1, "abc"), (2, "abcdef"), (3, "abcdefg")] {
        whole_stops(&rt, halts_after(rt.alloc(), calls, true), calls, text);
        whole_stops(&rt, halts_after(rt.alloc(), calls, false), calls, text);
    }
}

fn parts_stop(rt: &impl Abort, mut writer: Tallied<Halting>, calls: u32, text: &str) {
    let parts: [&[u8]; 3] = [b"ab", b"", b"cdefg"];
    let written = write_parts(&mut writer, &parts);
    assert!(rt; written.is_ok() == (calls == 3));
    has_taken(rt, writer, calls, text);
}

#[test]
fn a_stopped_write_of_parts_is_counted(rt: HostRuntime) {
    for (calls, text) in [(0, ""), (1, "ab"), (2, "abcde"), (3, "abcdefg")] {
        parts_stop(&rt, halts_after(rt.alloc(), calls, true), calls, text);
        parts_stop(&rt, halts_after(rt.alloc(), calls, false), calls, text);
    }
}

/// A write of which no byte is taken, after which `failures` failures are counted.
fn takes_none(rt: &impl Abort, writer: &mut Tallied<Halting>, bytes: &[u8], failures: u64) {
    assert!(rt; writer.write(bytes).ok() == Some(0));
    assert!(rt; writer.failures() == failures);
}

#[test]
fn each_failed_call_of_a_writer_is_counted(rt: HostRuntime) {
    let mut writer = halts_after(rt.alloc(), 1, false);
    assert!(rt; writer.flush().is_ok());
    takes_none(&rt, &mut writer, b"", 0);
    takes_none(&rt, &mut writer, b"a", 1);
    takes_none(&rt, &mut writer, b"", 1);
    assert!(rt; writer.flush().is_err());
    assert!(rt; writer.failures() == 2);
}

/// A read of `count` bytes, or of none if it fails, after which `failures` failures are counted.
fn gives(rt: &impl Abort, reader: &mut Tallied<Hiccup>, count: Option<usize>, failures: u64) {
    assert!(rt; reader.read(&mut [0]).ok() == count);
    assert!(rt; reader.failures() == failures);
}

#[test]
fn each_failed_call_of_a_reader_is_counted(rt: HostRuntime) {
    let mut reader = Tallied::new(Hiccup(0));
    gives(&rt, &mut reader, Some(1), 0);
    gives(&rt, &mut reader, None, 1);
    gives(&rt, &mut reader, Some(0), 1);
}
