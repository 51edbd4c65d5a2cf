// `slots` on a long script, whose answers were computed by a model that was written apart from it.
#![tactic(auto)]

fn main(rt: HostRuntime) -> anyhow::Result<()> {
    console::run(&rt)
}
