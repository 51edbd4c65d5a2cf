// `slots`: runs a session from standard input and prints one answer for each line.
#![tactic(auto)]

fn main(rt: HostRuntime) -> anyhow::Result<()> {
    console::run(&rt)
}
