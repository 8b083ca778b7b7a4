// Gives all the doors of a board one new number, tells an installer of each step, and
// spells out the sealed letters that begin a change, whole and damaged.
#![tactic(auto)]

mod change;
mod doors;
mod refused;
mod runs;
mod sealed;
mod spelled;

fn run(rt: &impl Print) -> anyhow::Result<()> {
    runs::keypad_goes_through(rt)?;
    rt.println("")?;
    runs::keypad_refuses(rt)?;
    rt.println("")?;
    runs::one_place_refuses(rt)?;
    rt.println("")?;
    runs::wheels_go_through(rt)?;
    rt.println("")?;
    runs::wheels_refuse(rt)?;
    rt.println("")?;
    sealed::letters(rt)
}

fn main(rt: HostRuntime) -> anyhow::Result<()> {
    run(&rt)
}
