// Words and numbers: decimal, and hex of a fixed width in capitals.
ghost use Rattle.std.specs.Prelude.{◌++◌};
ghost use Rattle.hexadecimal.specs.Hex.{hex_digits};
ghost use Rattle.sink.specs.Sinks.{Adds, AddsDecimal};

use sink::{Buffer, Sink};

// A word and a number in decimal.
pub fn decimal(s: Sink, out: &mut Buffer, word: &[u8], n: usize) -> Sink
    ensures { AddsDecimal s out.old word.now n result out.new }
{
    let t = sink::put(s, out, word);
    let mut text = [0u8; 20];
    let k = io::decimal(n as u64, &mut text);
    sink::put(t, out, &text[..k])
}

// A word and a mode, in three digits.
pub fn hex3(s: Sink, out: &mut Buffer, word: &[u8], n: usize) -> Sink
    ensures { Adds s out.old (word.now ++ hex_digits 3 n) result out.new }
{
    let t = sink::put(s, out, word);
    sink::put(t, out, &hexadecimal::three(n))
}

// A word and a position, in four digits.
pub fn hex4(s: Sink, out: &mut Buffer, word: &[u8], n: usize) -> Sink
    ensures { Adds s out.old (word.now ++ hex_digits 4 n) result out.new }
{
    let t = sink::put(s, out, word);
    sink::put(t, out, &hexadecimal::four(n))
}

// A word and a fixup's number, in six digits.
pub fn hex6(s: Sink, out: &mut Buffer, word: &[u8], n: usize) -> Sink
    ensures { Adds s out.old (word.now ++ hex_digits 6 n) result out.new }
{
    let t = sink::put(s, out, word);
    sink::put(t, out, &hexadecimal::six(n))
}

// A word and a value or a base, in eight digits.
pub fn hex8(s: Sink, out: &mut Buffer, word: &[u8], n: usize) -> Sink
    ensures { Adds s out.old (word.now ++ hex_digits 8 n) result out.new }
{
    let t = sink::put(s, out, word);
    sink::put(t, out, &hexadecimal::eight(n))
}
