// Marks in a lent buffer (document 02, 2.5): a preamble with three endings, marks of closed states, lengths and counts, forged states and
// forged marks. What must be written, in `stdout`, is from the implementation in hosts/rust/reference, which shares no code with this
// project's.
// Instances, phases and widths are numbers throughout: wrong ones are among what is tried.
#![tactic(auto)]

mod calls;
mod counts;
mod endings;
mod forged;

use std::io;

fn main(rt: HostRuntime) -> io::Result<()> {
    for instance in [1, 2, 3] {
        endings::write_instance(&rt, instance)?;
    }
    counts::write_lengths(&rt)?;
    counts::write_states(&rt)?;
    forged::write_fields(&rt)
}
