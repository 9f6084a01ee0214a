// Files of each shape, and for each refusal files that meet it at the edge and neighbours that do not; what each is
// read as goes to standard output, a line each.
#![tactic(auto)]

mod drafts;
mod fields;
mod places;
mod shapes;
mod shown;

fn run(rt: &HostRuntime) -> anyhow::Result<()> {
    shapes::shapes(rt)?;
    shapes::largest(rt)?;
    shapes::too_long(rt)?;
    fields::cut(rt)?;
    fields::tags(rt)?;
    fields::early_ends(rt)?;
    fields::lengths(rt)?;
    fields::calls(rt)?;
    fields::counts(rt)?;
    fields::kinds(rt)?;
    fields::limits(rt)?;
    fields::orders(rt)?;
    places::turns(rt)?;
    places::ladder_turns(rt)?;
    places::versions(rt)?;
    places::missing(rt)?;
    places::amounts(rt)?;
    places::rungs(rt)?;
    places::two_faults(rt)
}

fn main(rt: HostRuntime) -> anyhow::Result<()> {
    run(&rt)
}
