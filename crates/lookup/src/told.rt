// What is told beside a pattern: refusals, complaints, the use.
use host::{STDERR_FILENO, STDOUT_FILENO};
use sink::Buffer;

// A refusal, on standard output and on standard error.
pub(crate) fn refused(out: &mut Buffer, number: usize, place: usize) {
    let s1 = texts::decimal(sink::new(), out, b"refused ", number);
    let s2 = texts::decimal(s1, out, b" at ", place);
    let s3 = sink::put(s2, out, b"\n");
    let s4 = sink::flush(s3, out);
    if !s4.broken {
        io::write_all(STDERR_FILENO, b"lookup: refused\n");
    }
}

// The use, and what is written.
pub(crate) fn help() {
    io::write_all(
        STDOUT_FILENO,
        b"usage: lookup BOOK [NAME]\n\
          Looks NAME up in the pattern book BOOK (- is standard input) and writes its pattern: POSITION VALUE/MASK ..,\n\
          eight positions a row; mask FF: known, 00: not known. Without NAME the contents: a line for each entry with its\n\
          size and its name. A control byte in a name is shown as \\xHH.\n\
          refused 21 at PLACE   contents out of order, with equal names or out of the file\n\
          refused 22 at PLACE   a gap, an overlap or bytes left over\n\
          refused 23 at 0       the name is not in the book\n",
    );
}
