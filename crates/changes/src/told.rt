// The use, the help, and options that are not known.
use host::{STDERR_FILENO, STDOUT_FILENO};
use std::env::Env;

// How the program is called.
pub(crate) fn usage() {
    io::write_all(
        STDERR_FILENO,
        b"usage: changes [--] OLDER NEWER, or changes --help\n",
    );
}

// Tells of an option that is not known, and how the program is called.
pub(crate) fn unknown(rt: &impl Env, i: usize) {
    console::tell_option(rt, i);
    usage()
}

// The use, and what is written.
pub(crate) fn help() {
    io::write_all(
        STDOUT_FILENO,
        b"usage: changes [--] OLDER NEWER\n\
          Tells what changed between two object modules, the older and the newer; - is standard input.\n\
          \n\
          area 0 position 0004 12/FF -> 02/FF   a position, the older's value and mask and the newer's; none: a side lacks it\n\
          area 0 older fix ..                   a fixup that the newer lacks, as a listing has it\n\
          area 0 newer fix ..                   a fixup that the older lacks\n\
          area 2 only in older                  an area with code, by its id, that the newer lacks; or only in newer\n\
          symbol _go 00000000 -> 00000004       the values of a symbol; none: a side lacks it\n\
          no change                             nothing differs\n\
          older: refused N at PLACE             the older module is refused, or newer: the newer; nothing is compared\n\
          refused 19 at 0                       one of the two is not finished; nothing is compared\n\
          \n\
          Areas pair by their ids, symbols by their names, of which the first on a side counts. Ids are decimal, the rest is\n\
          hex. Standard error has a line for a refusal, and for a file that cannot be read.\n",
    );
}
