// What --help prints, and what an option prints that is not known.
use host::{STDERR_FILENO, STDOUT_FILENO};
use std::env::Env;

// How the program is called, and what it writes.
fn usage() -> bool {
    io::write_all(
        STDOUT_FILENO,
        b"usage: report [--named] [--page] <NAMES\n\
          Reports on object modules, whose names come from standard input, one a line, by the ended reading. With --named\n\
          each name is followed by a line with the name under which it is shown. With --page the report is one HTML page.\n\
          \n\
          NAME: kept N positions N unwritten N known N fixups N addr19 N addr11 N addr24 N addr16 N byte N VERDICT\n\
          NAME: refused NUMBER at PLACE\n\
          total modules N refused N finished N stopped N not equal N\n\
          total kept N .. byte N\n\
          \n\
          kept: areas with code. positions: bytes of theirs. unwritten: positions that no line writes. known: bits that are\n\
          known. fixups: of them, and how many of each class. The verdict and the refusals are those of list, and:\n  \
            17  more than 10,000 names; no more are read\n  \
            26  the file cannot be read\n\
          Standard error has a line for each module that is stopped, not equal or refused, and stays empty if all are whole.\n",
    )
}

// The whole help.
pub(crate) fn help() {
    if usage() {
        return;
    }
    host::tell_failure(b"standard output", host::last_failure())
}

// Tells of an option that is not known, and how the program is called.
pub(crate) fn tell_unknown(rt: &impl Env, i: usize) {
    console::tell_option(rt, i);
    io::write_all(
        STDERR_FILENO,
        b"usage: report [--named] [--page] <NAMES, or report --help\n",
    );
}
