// Names in a page: nothing in a name can be taken for the page's own text, and control bytes are shown as in a listing.
#![tactic(auto)]

ghost use Rattle.sink.specs.Sinks.{Adds};
ghost use Rattle.page_name.specs.Names.{in_page, page_byte, quoted_byte};

use sink::{Buffer, Sink};

// A byte that is none of < > &: a quote by its entity, any other as in a listing.
fn quoted_byte(s: Sink, out: &mut Buffer, byte: u8) -> Sink
    ensures { Adds s out.old (quoted_byte byte) result out.new }
{
    if byte == b'"' {
        return sink::put(s, out, b"&quot;");
    }
    if byte == b'\'' {
        return sink::put(s, out, b"&#39;");
    }
    texts::name(s, out, &[byte])
}

// A byte of a name.
fn page_byte(s: Sink, out: &mut Buffer, byte: u8) -> Sink
    ensures { Adds s out.old (page_byte byte) result out.new }
{
    if byte == b'<' {
        return sink::put(s, out, b"&lt;");
    }
    if byte == b'>' {
        return sink::put(s, out, b"&gt;");
    }
    if byte == b'&' {
        return sink::put(s, out, b"&amp;");
    }
    quoted_byte(s, out, byte)
}

// A name, safe between the page's own words and inside its quotes.
pub fn name(s: Sink, out: &mut Buffer, bytes: &[u8]) -> Sink
    ensures { Adds s out.old (in_page bytes.now) result out.new }
{
    let mut now = s;
    for byte in bytes {
        now = page_byte(now, out, *byte);
    }
    now
}
