// Reports on the modules of a library.
#![tactic(auto)]

fn main(rt: HostRuntime) {
    report_run::run(&rt)
}
