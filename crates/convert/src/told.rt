// The use and the help.
use host::{STDERR_FILENO, STDOUT_FILENO};
use std::env::Env;

// How the program is called.
pub(crate) fn usage() {
    io::write_all(
        STDERR_FILENO,
        b"usage: convert < MODULE > CONVERTED, or convert --help\n",
    );
}

// Tells of an option that is not known, and how the program is called.
pub(crate) fn unknown(rt: &impl Env, i: usize) {
    console::tell_option(rt, i);
    usage()
}

// The use, and what is written.
pub(crate) fn help() {
    io::write_all(
        STDOUT_FILENO,
        b"usage: convert < MODULE > CONVERTED\n\
          Writes an object module with an octal (Q), decimal (D) or hexadecimal (X) header as X: the same order of bytes and\n\
          address length, A and S lines, T and R lines, nothing that a reading ignores. What is written gives the same images,\n\
          fixups and symbols as the module, and the ended reading takes it and is finished.\n\
          Only a module that is whole is written: each record has its line end, and no byte is left over. Otherwise nothing\n\
          is written, and standard error is told why:\n\
          -: refused N at P           the refusals of list but 18; 15 if the text would be over 65,536 bytes\n\
          -: stopped at P reason R    the place of the first byte that is left over, and why: 1 no digit, 2 over 32 bits,\n\
          \x20                           3 over 255, 4 anything else\n",
    );
}
