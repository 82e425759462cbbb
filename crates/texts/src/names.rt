// Names as they are shown: a control byte can neither forge a line nor steer a terminal.
ghost use Rattle.std.specs.Prelude.{◌≡◌};
ghost use Rattle.texts.specs.Names.{control, shown_byte, shown};
ghost use Rattle.sink.specs.Sinks.{Adds};

use sink::{Buffer, Sink};

// Whether a byte is a control byte.
fn is_control(byte: u8) -> bool
    ensures { result ≡ control byte }
{
    byte < 32 || byte == 127
}

// A byte of a name, as it is or as a backslash, an x and two digits.
fn shown_byte(s: Sink, out: &mut Buffer, byte: u8) -> Sink
    ensures { Adds s out.old (shown_byte byte) result out.new }
{
    if is_control(byte) {
        return sink::put(s, out, &hexadecimal::escape(byte as usize));
    }
    sink::put(s, out, &[byte])
}

// A name, its control bytes escaped.
pub fn name(s: Sink, out: &mut Buffer, bytes: &[u8]) -> Sink
    ensures { Adds s out.old (shown bytes.now) result out.new }
{
    let mut now = s;
    for byte in bytes {
        now = shown_byte(now, out, *byte);
    }
    now
}
