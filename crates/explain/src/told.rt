// The use, the help, and options that are not known.
use host::{STDERR_FILENO, STDOUT_FILENO};
use std::env::Env;

// How the program is called.
pub(crate) fn usage() {
    io::write_all(
        STDERR_FILENO,
        b"usage: explain [--lines] ID POSITION [FILE] (ID decimal, POSITION hex, as a listing has them), or explain --help\n",
    );
}

// Tells of an option that is not known, and how the program is called.
pub(crate) fn unknown(rt: &impl Env, i: usize) {
    console::tell_option(rt, i);
    usage()
}

// The use, and what is written.
pub(crate) fn help() {
    io::write_all(
        STDOUT_FILENO,
        b"usage: explain [--lines] ID POSITION [FILE]\n\
          Tells which line of an object module wrote a position last: ID is a kept area's id, decimal, and POSITION a\n\
          position in it, hex, both as a listing has them. FILE is the module; - or none is standard input.\n\
          \n\
          0004 12/FF line at 173   value and mask, and the place of the T line that wrote them\n\
          0005 00/00 no line       no line writes the position\n\
          refused N at PLACE       the module is refused; 20: there is no such id or position\n\
          \n\
          --lines shows behind it the T line under its number, a caret under the byte, and each fragment of the R line\n\
          that covers the byte: its mode in words, and what it refers to.\n\
          Standard error has a line for a module that is refused, stopped or not equal, and for one that cannot be read.\n",
    );
}
