// The use and the help.
use host::{STDERR_FILENO, STDOUT_FILENO};
use std::env::Env;

// Tells of an option that is not known, and how the program is called.
pub(crate) fn unknown(rt: &impl Env, i: usize) {
    console::tell_option(rt, i);
    io::write_all(
        STDERR_FILENO,
        b"usage: strip [--] NAME... < MODULE > STRIPPED\n",
    );
}

// The use, and what is written.
pub(crate) fn help() {
    io::write_all(
        STDOUT_FILENO,
        b"usage: strip [--] NAME... < MODULE > STRIPPED\n\
          Takes the S lines of the named symbols out of an object module and writes the rest: X header, A and S lines,\n\
          T and R lines, nothing that a reading ignores. With no name it writes the module back.\n\
          Before anything is written both modules are read, and their images, fixups and symbols are compared.\n\
          A symbol that is not there, or that an R line refers to, is told on standard error, and so is a module that is\n\
          refused or stopped; then nothing is written.\n",
    );
}
