// Lists object modules by the plain reading.
#![tactic(auto)]

fn main(rt: HostRuntime) {
    listing::run(&rt, false)
}
