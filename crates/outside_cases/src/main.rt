//! Calls what no text reaches: lists and levels, cursors and places, devices in memory that fail as planned, and real
//! files and streams. It prints a line for each thing that it saw.
//!
//! It makes the file `outside_cases.out` in the folder where it runs, and removes it. A file that may not be read is read
//! all the same by root, so that run as root it prints another line there.
#![tactic(auto)]

mod fault;
mod memory;
mod real;
mod shown;
mod texts;
mod values;

use fault::Fault;

fn main(rt: HostRuntime) -> Result<(), Fault> {
    values::all(&rt)?;
    texts::all(&rt)?;
    memory::all(&rt)?;
    real::all(&rt)
}
