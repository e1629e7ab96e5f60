// A page of output: octets go into an array of fixed size, and a full one is written before more go in.
ghost use Rattle.std.specs.Prelude.{◌≡◌, ◌+◌, ◌-◌, ◌≤◌, ◌++◌, min, length, take, drop, OnOk};
ghost use Rattle.std.specs.Io.KnownBytes.{Appends};

use std::io;
use std::io::Write;

// How many octets are read at once, and written at once, at most.
pub(crate) const PAGE: usize = 65536;

// Zeros. The length is all that its callers need of them.
pub(crate) fn blank() -> [u8; PAGE]
    ensures { 65536 ≡ length result }
{
    [0; PAGE]
}

// The first `len` octets are still to be written.
#[derive(Drop)]
pub(crate) struct Page<W: Write> {
    out: W,
    octets: [u8; PAGE],
    len: usize,
    ghost within: { len ≤ 65536 },
}

impl<W: Write> Page<W> {
    pub(crate) fn new(out: W) -> Page<W>
        ensures { result.len ≡ 0 }
    {
        Page {
            out,
            octets: blank(),
            len: 0,
        }
    }

    // Puts as many octets of `s` after those that the page holds as there is room for, and answers how many. No other octet of the page changes.
    fn put(&mut self, s: &[u8]) -> usize
        ensures count { result ≡ min (length s.now) (65536 - self.old.len) }
        ensures len { self.new.len ≡ self.old.len + result }
        ensures octets { self.new.octets ≡ take self.old.len self.old.octets ++ take result s.now ++ drop (self.old.len + result) self.old.octets }
    {
        let count = s.len().min(PAGE - self.len);
        let end = self.len + count;
        self.octets[self.len..end].copy_from_slice(&s[..count]);
        self.len = end;
        count
    }

    // Puts all of `s`, of which each part fills a page but the last.
    #[cold]
    #[inline(never)]
    fn write_parts(&mut self, s: &[u8]) -> io::Result<()> {
        let mut rest = s;
        for _ in 0..s.len() {
            let count = self.write(rest)?;
            rest = &rest[count..];
            if rest.is_empty() {
                break;
            }
        }
        Ok(())
    }

    // Writes what the page holds, which is empty then.
    fn write_out(&mut self) -> io::Result<()>
        ensures empty { self.new.len ≡ 0 }
        ensures written { OnOk result (Appends (W.contents self.old.out) (W.contents self.new.out) (take self.old.len self.old.octets)) }
    {
        let len = self.len;
        self.len = 0;
        self.out.write_all(&self.octets[..len])
    }
}

impl<W: Write> Write for Page<W> {
    fn write(&mut self, s: &[u8]) -> io::Result<usize> {
        if self.len == PAGE {
            self.write_out()?;
        }
        Ok(self.put(s))
    }

    #[inline(always)]
    fn write_all(&mut self, s: &[u8]) -> io::Result<()> {
        if s.len() <= PAGE - self.len {
            self.put(s);
            return Ok(());
        }
        self.write_parts(s)
    }

    fn flush(&mut self) -> io::Result<()> {
        self.write_out()?;
        self.out.flush()
    }
}
