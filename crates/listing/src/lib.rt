// What the programs `list` and `list_plain` share: modules from standard input or from files, and
// the listing of each.
#![tactic(auto)]

mod arguments;
mod help;
mod how;
mod module;
mod source;

use host::Host;

// Lists the modules that the arguments name, or the one on standard input where there are none, by
// the ended or the plain reading.
pub fn run(rt: &impl Host, ended: bool) {
    arguments::run(rt, ended)
}
