// Packs the kept areas of modules into a pattern book.
#![tactic(auto)]

mod arguments;
mod list;
mod module;
mod name;
mod shelf;
mod told;
mod whole;
mod written;

fn main(rt: HostRuntime) {
    let mut pool = shelf::empty_pool();
    let mut rows = shelf::empty_rows();
    arguments::run(&rt, &mut pool, &mut rows)
}
