//! Calls what no text reaches yet of metavariables and signatures, and prints what it saw.
#![tactic(auto)]

mod fault;
mod signatures;
mod solved;

use fault::Fault;

fn main(rt: HostRuntime) -> Result<(), Fault> {
    solved::doubled(&rt)?;
    solved::apart(&rt)?;
    solved::chain(&rt)?;
    signatures::declared(&rt)?;
    Ok(())
}
