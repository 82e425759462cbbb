// The use and the help.
use host::{STDERR_FILENO, STDOUT_FILENO};

// How the program is called.
pub(crate) fn usage() {
    io::write_all(
        STDERR_FILENO,
        b"usage: place_at [-b] area ID ADDRESS... symbol NAME ADDRESS... < MODULE, or place_at --help\n",
    );
}

// The use, and what is written.
pub(crate) fn help() {
    io::write_all(
        STDOUT_FILENO,
        b"usage: place_at [-b] area ID ADDRESS... symbol NAME ADDRESS... < MODULE\n\
          Places the code of an object module: every area with code by its id at an address, every symbol that another module\n\
          defines at an address. IDs are decimal, as a listing has them, addresses one to sixteen hex digits. Of two addresses\n\
          for one the last counts.\n\
          \n\
          area INDEX id ID at ADDRESS size SIZE         an area with code, and where it lies\n\
          ADDRESS BYTE ..                               its bytes, eight a row; 00 where no line writes\n\
          fix ADDRESS BYTES refers ADDRESS target ADDRESS   bytes filled in: how many, the address that they refer to, and the\n\
                                                        one that they lead to; target refused 14: they run past the area\n\
          refused NUMBER at PLACE                       nothing is placed; 25: a fragment is no plain address of 16 or 24\n\
                                                        bits, or a byte is written twice\n\
          \n\
          -b writes the bytes of all areas with code, one area behind the other, and nothing else.\n\
          An area or a symbol without an address is told on standard error, and so is one that is not there, and a module that is\n\
          refused or stopped: then nothing is placed.\n",
    );
}
