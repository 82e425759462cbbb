// Standard output behind a buffer that the caller lends.
ghost use Rattle.std.specs.Prelude.{◌≡◌};
ghost use Rattle.sink.specs.Sinks.{empty, lost, Adds, Written};

use host::STDOUT_FILENO;

// Where bytes wait until they are written.
pub type Buffer = [u8; 65536];

// How many bytes wait at the start of the buffer, and whether a write has failed.
#[derive(Clone, Copy)]
pub struct Sink {
    pub used: usize,
    pub broken: bool,
}

// Nothing waits yet.
pub fn new() -> Sink
    ensures { result ≡ empty }
{
    Sink {
        used: 0,
        broken: false,
    }
}

// Nothing is written any more.
fn broken() -> Sink
    ensures { result ≡ lost }
{
    Sink {
        used: 0,
        broken: true,
    }
}

// Writes the bytes that wait in a slice. A write that fails is told once.
#[inline(never)]
fn write(s: Sink, out: &[u8]) -> Sink
    ensures { Written s result }
{
    if s.broken || out.len() < s.used {
        return broken();
    }
    if io::write_all(STDOUT_FILENO, &out[..s.used]) {
        return new();
    }
    host::tell_failure(b"standard output", host::last_failure());
    broken()
}

// Adds bytes to those that wait in a slice, which are written first where it has no room left. Inlined, as `put` is, since most
// callers add a few bytes whose number is known there, which are then stored without a call.
#[inline(always)]
fn add(s: Sink, out: &mut [u8], bytes: &[u8]) -> Sink
    ensures { Adds s out.old bytes.now result out.new }
{
    let used = s.used;
    let n = bytes.len();
    if out.len() < used || out.len() - used < n {
        return add_first(write(s, out), out, bytes);
    }
    cells::copy_bytes(out, used, bytes, n);
    Sink {
        used: used + n,
        ..s
    }
}

// Adds bytes where none wait, or writes them at once where they are more than the slice holds. Inlined too: bytes that a call takes
// by their place are stored there first, and read back on every way.
#[inline(always)]
fn add_first(s: Sink, out: &mut [u8], bytes: &[u8]) -> Sink {
    let n = bytes.len();
    let t = Sink { used: n, ..s };
    if n <= out.len() {
        cells::copy_bytes(out, 0, bytes, n);
        return t;
    }
    write(t, bytes)
}

// Writes what waits.
pub fn flush(s: Sink, out: &Buffer) -> Sink
    ensures { Written s result }
{
    write(s, out)
}

// Adds bytes to what waits.
#[inline(always)]
pub fn put(s: Sink, out: &mut Buffer, bytes: &[u8]) -> Sink
    ensures { Adds s out.old bytes.now result out.new }
{
    add(s, out, bytes)
}
