// Processor 4 is refused, before its variable.
#![tactic(auto)]

fn main(rt: HostRuntime) {
    trace_report::run(&rt);
}
