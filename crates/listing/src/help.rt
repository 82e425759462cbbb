// What --help prints, and what an option prints that is not known.
use host::{STDERR_FILENO, STDOUT_FILENO};
use std::env::Env;

// How the program is called, and which reading it is.
fn usage(ended: bool) -> bool {
    if ended {
        return io::write_all(
            STDOUT_FILENO,
            b"usage: list [--why] [--] [FILE | --as NAME FILE]...\n\
              Lists object modules by the ended reading: a line counts only if its line end stands behind it.\n\
              --why shows behind the listing of a module that is stopped or refused the line, with a caret where it came to a halt.\n",
        );
    }
    io::write_all(
        STDOUT_FILENO,
        b"usage: list_plain [--] [FILE | --as NAME FILE]...\n\
          Lists object modules by the plain reading: what is read counts, up to the first byte that cannot be.\n\
          It takes a line without its end, so it cannot tell a cut module from a whole one, and gives no verdict: where\n\
          it ended, of how many bytes, is all that it says. For a verdict use list.\n",
    )
}

// What a listing's lines are.
fn lines() -> bool {
    io::write_all(
        STDOUT_FILENO,
        b"Each FILE is a module, listed under a line with its name, or with NAME; - is standard input. Without FILE one\n\
          module comes from standard input. A control byte in a name is shown as \\xHH.\n\
          \n\
          areas N symbols N lines N   how many A and S lines, and T and R pairs\n\
          finished                    no byte is left (list)\n\
          stopped at PLACE reason N   the place of the first byte that is left, and why the line there came to a halt:\n\
          .. not equal                1 no digit, 2 over 32 bits, 3 over 255, 4 anything else; and where the counts in the\n\
                                      H line are not those of the A and S lines (list)\n\
          plain reading ended at N of M   N of M bytes were read, which is no verdict (list_plain)\n\
          area INDEX id ID ..         an area with code, relocatable or absolute with its base, and its size\n\
          POSITION VALUE/MASK ..      its bytes, eight a row; mask FF: known, 00: not known\n\
          sym NAME VALUE              a symbol behind the area's line\n\
          fix POSITION SIZE ..        bytes to be filled in: mode, outside symbol (pub) or area's id, value, number\n\
          refused NUMBER at PLACE     nothing is listed\n\
          \n\
          Counts, ids, sizes and places are decimal, the rest is hex. Places count bytes from 0.\n\
          Standard error has a line for each module that is stopped or not equal (list) or refused, and for each name that\n\
          cannot be read. With list it stays empty exactly if every module is whole.\n",
    )
}

// What the refusals mean.
fn refusals() -> bool {
    io::write_all(
        STDOUT_FILENO,
        b"Refusals:\n   \
             1  a buffer is too short, which does not happen here\n   \
             2  the text has more than 65,536 bytes\n   \
             3  a byte is above 127\n   \
             4  there is no header, such as XH3\n   \
             5  more than 64 areas\n   \
             6  more than 1,024 symbols\n   \
             7  a T line with more than 256 bytes of content\n   \
             8  an R line with more than 64 fragments\n   \
             9  the areas with code have more than 65,536 bytes together\n  \
            10  a fragment runs past its T line\n  \
            11  a fragment names a symbol that is not there\n  \
            12  a fixup has no number\n  \
            13  more than 1,024 fixups\n  \
            18  the header is Q or D, and list takes X only\n",
    )
}

// The whole help.
pub(crate) fn help(ended: bool) {
    if usage(ended) && lines() && refusals() {
        return;
    }
    host::tell_failure(b"standard output", host::last_failure())
}

// Tells of an option that is not known, and how the program is called.
pub(crate) fn tell_unknown(rt: &impl Env, ended: bool, i: usize) {
    console::tell_option(rt, i);
    if ended {
        io::write_all(
            STDERR_FILENO,
            b"usage: list [--why] [FILE]..., or list --help\n",
        );
    } else {
        io::write_all(
            STDERR_FILENO,
            b"usage: list_plain [FILE]..., or list_plain --help\n",
        );
    }
}
