// A trace that is cut over five reads, with clears among its lines, also where it is cut.
#![tactic(auto)]

fn main(rt: HostRuntime) {
    trace_report::run(&rt);
}
