// Lists object modules by the ended reading.
#![tactic(auto)]

fn main(rt: HostRuntime) {
    listing::run(&rt, true)
}
