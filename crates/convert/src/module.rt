// A module's text written as X, or why it is not.
use convert_answer::Converted;
use convert_module::convert;
use rooms::TEXT_ROOM;
use sink::{Buffer, Sink};

// Tells the words that wait in a buffer of their own.
fn tell(s: Sink, line: &Buffer) {
    console::tell_words(b"-", sink::first_bytes(line, s.used))
}

// Where the reading stopped, and why.
fn tell_stop(place: usize, reason: u8) {
    let mut line = io::large_buffer();
    let s = texts::decimal(sink::new(), &mut line, b"stopped at ", place);
    let t = texts::decimal(s, &mut line, b" reason ", reason as usize);
    tell(t, &line)
}

// Writes the text; that it cannot be written is told.
fn write_text(text: &[u8]) {
    if !io::write_all(host::STDOUT_FILENO, text) {
        console::tell_reason(b"standard output", host::last_failure());
    }
}

// Writes a module as X if it is whole; otherwise nothing is written, and standard error is told why.
pub(crate) fn convert_text(text: &[u8]) {
    let mut out = [0u8; TEXT_ROOM];
    match convert(text, &mut out) {
        Converted::Refusal { number, place } => console::tell_number(b"-", number as usize, place),
        Converted::Stopped {
            place,
            reason,
            halt: _,
        } => tell_stop(place, reason),
        Converted::Bytes { count } => write_text(sink::first_bytes(&out, count)),
    }
}
