//! Calls what no text reaches yet of shared terms and of the texts of names, and prints what it saw.
#![tactic(auto)]

mod changes;
mod fault;
mod terms;

use fault::Fault;

fn main(rt: HostRuntime) -> Result<(), Fault> {
    terms::names(&rt)?;
    terms::pool(&rt)?;
    changes::binders(&rt)?;
    changes::items(&rt)?;
    Ok(())
}
