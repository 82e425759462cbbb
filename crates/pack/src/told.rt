// What is told beside what every program tells.
use host::{STDERR_FILENO, STDOUT_FILENO};

// More than the room for a book.
pub(crate) fn full() {
    io::write_all(
        STDERR_FILENO,
        b"pack: more than 16384 entries or 2097152 bytes\n",
    );
}

// Nothing is written, since modules are not whole.
pub(crate) fn nothing() {
    io::write_all(STDERR_FILENO, b"pack: no book written\n");
}

// Wrong use.
pub(crate) fn usage() {
    io::write_all(
        STDERR_FILENO,
        b"usage: pack [--skip] [--fixups] [--] [FILE | --as NAME FILE]...\n",
    );
}

// The use, and what is written.
pub(crate) fn help() {
    io::write_all(
        STDOUT_FILENO,
        b"usage: pack [--skip] [--fixups] [--] [FILE | --as NAME FILE]...\n\
          Packs the kept areas of object modules into a pattern book on standard output. Without FILE the modules' names\n\
          come from standard input, one a line. An entry is called MODULE:ID: the module's name without folder and .rel,\n\
          and the area's id. Only whole modules go in: finished, and counts not unequal. One that is not is told on\n\
          standard error and nothing is written; with --skip it is left out, and told. Two entries of one name are told\n\
          and nothing is written.\n\
          With --fixups the fixups of each whole module are listed instead, and a module that is not whole is told:\n\
          MODULE:ID fix POSITION SIZE mode MODE pub NAME|area ID VALUE offset NUMBER\n",
    );
}
