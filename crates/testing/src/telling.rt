// What the test programs write: digests that stand for many numbers, and what stands in the slices that a call filled.
ghost use Rattle.std.specs.Prelude.{◌≤◌, IsOk};

use std::io;

// The largest prime below 2^32.
const PRIME: i64 = 4294967291;

// A digest with one number more: digest·1000003 + x modulo the prime.
pub fn mixed(digest: u64, x: u64) -> u64 {
    let prime = PRIME.cast_unsigned();
    (digest % prime * 1000003 + x % prime) % prime
}

pub fn mixed_signed(digest: u64, x: i64) -> u64 {
    mixed(digest, x.rem_euclid(PRIME).cast_unsigned())
}

// What stands at one place of the slices that a call fills, for a program that is to know of a write that fails. None here is; theirs is `Shown`.
pub trait Entry: Copy + PartialEq {
    // What stands at every place before a call.
    const OLD: Self;

    // A digest with the entry's numbers more.
    fn mixed(self, digest: u64) -> u64;

    // Writes it, with its place counted from 1.
    fn tell(self, rt: &impl Print, place: usize) -> io::Result<()>;
}

// The same for a program that lets go a write that fails, as the test programs do.
pub trait Shown: Copy + PartialEq {
    const OLD: Self;

    fn mixed(self, digest: u64) -> u64;

    fn show(self, rt: &impl Print, place: usize);
}

// What was seen of the slices so far: a digest of what the call put there, and whether the rest is as it was.
#[derive(Clone, Copy)]
pub struct Seen {
    pub digest: u64,
    pub kept: bool,
}

impl Seen {
    pub fn nothing() -> Seen {
        Seen {
            digest: 1,
            kept: true,
        }
    }

    // One place more. Of the entries that the call put there, `count`, the first are told, and the last one. The failure of
    // that write is given.
    pub fn see<E: Entry>(
        &mut self,
        rt: &impl Print,
        entry: E,
        place: usize,
        count: usize,
        shown: usize,
    ) -> io::Result<()>
        ensures untold { count ≤ place → IsOk result }
    {
        if count <= place {
            self.kept = self.kept && entry == E::OLD;
            return Ok(());
        }
        self.digest = entry.mixed(self.digest);
        if place < shown || place + 1 == count {
            entry.tell(rt, place + 1)?;
        }
        Ok(())
    }

    // The same of an entry that lets go a write that fails.
    pub fn show<E: Shown>(
        &mut self,
        rt: &impl Print,
        entry: E,
        place: usize,
        count: usize,
        shown: usize,
    ) {
        if count <= place {
            self.kept = self.kept && entry == E::OLD;
            return;
        }
        self.digest = entry.mixed(self.digest);
        if place < shown || place + 1 == count {
            entry.show(rt, place + 1);
        }
    }

    // Whether the entries that a call should have left alone were.
    pub fn rest(self) -> &'static str {
        if self.kept { "kept" } else { "changed" }
    }
}

#[cfg(test)]
mod tests {
    use super::*;
    use std::fmt::Display;
    use std::io::{Error, ErrorKind};

    // An output that takes no more.
    struct Full;

    impl Print for Full {
        fn print<D: Display + Drop>(&self, _value: D) -> io::Result<()> {
            Err(Error::from(ErrorKind::BrokenPipe))
        }

        fn println<D: Display + Drop>(&self, _value: D) -> io::Result<()> {
            Err(Error::from(ErrorKind::BrokenPipe))
        }

        fn write_all(&self, _bytes: &[u8]) -> io::Result<()> {
            Err(Error::from(ErrorKind::BrokenPipe))
        }
    }

    #[derive(Clone, Copy, PartialEq)]
    struct Number(u64);

    impl Entry for Number {
        const OLD: Number = Number(77);

        fn mixed(self, digest: u64) -> u64 {
            mixed(digest, self.0)
        }

        fn tell(self, rt: &impl Print, place: usize) -> io::Result<()> {
            print!(rt; " {place} {}", self.0)
        }
    }

    impl Shown for Number {
        const OLD: Number = Number(77);

        fn mixed(self, digest: u64) -> u64 {
            mixed(digest, self.0)
        }

        fn show(self, rt: &impl Print, place: usize) {
            let _ = print!(rt; " {place} {}", self.0);
        }
    }

    // Of five places a call filled four, of which the first and the last are told.
    #[test]
    fn a_failed_write_is_given_or_let_go(rt: HostRuntime) {
        let (mut seen, mut shown) = (Seen::nothing(), Seen::nothing());
        let places = [(1, true), (2, false), (3, false), (4, true), (77, false)];
        for (place, (number, told)) in places.into_iter().enumerate() {
            let answer = seen.see(&Full, Number(number), place, 4, 1);
            assert_eq!(rt; answer.is_err(), told, "at {place}");
            shown.show(&Full, Number(number), place, 4, 1);
        }
        assert!(rt; seen.kept && shown.kept && seen.digest == shown.digest);
        assert!(rt; seen.see(&rt, Number(5), 0, 1, 1).is_ok());
        assert!(rt; seen.see(&Full, Number(78), 5, 4, 1).is_ok());
        shown.show(&Full, Number(78), 5, 4, 1);
        assert!(rt; !seen.kept && !shown.kept);
    }
}
