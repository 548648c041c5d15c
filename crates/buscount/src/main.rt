// Counts the bus cycles of the din trace on standard input.
#![tactic(auto)]

fn main(rt: HostRuntime) {
    trace_report::run(&rt);
}
