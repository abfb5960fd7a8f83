// Messages cut into pieces, blocks of their closed states, the limits, and forged states (document 01, "Pieces and finish"; document 02,
// 2.1). What must be written, in `stdout`, is from the implementation in hosts/rust/reference, which shares no code with this project's.
// Instances, phases and widths are numbers throughout: wrong ones are among what is tried.
#![tactic(auto)]

mod blocks;
mod calls;
mod cuts;
mod forged;
mod limit;
mod message;
mod states;
mod text;
mod widths;

use cuts::Message;
use refusals::number_of;
use std::io;

// `init`: its number, and the state.
fn write_fresh_states(rt: &impl Print) -> io::Result<()> {
    for instance in [0, 1, 2, 3, 4, 257] {
        let reply = sponge::init(instance);
        print!(rt; "init {instance}: {}, ", number_of(reply.answer))?;
        text::write_state(rt, reply.state)?;
    }
    Ok(())
}

// The first 40 and the first 67 bits of one message, at each instance.
fn write_messages(rt: &impl Print) -> io::Result<()> {
    for (name, instance, bits) in [
        ("U-QUARK", 1, 40),
        ("U-QUARK", 1, 67),
        ("D-QUARK", 2, 40),
        ("D-QUARK", 2, 67),
        ("S-QUARK", 3, 40),
        ("S-QUARK", 3, 67),
    ] {
        let message = Message {
            instance,
            bytes: b"lamp log\xA5",
            bits,
        };
        message.write_cuts(rt, name)?;
    }
    Ok(())
}

fn write_forged_states(rt: &impl Print) -> io::Result<()> {
    forged::write_sound(rt)?;
    forged::write_instances(rt)?;
    forged::write_phases_and_totals(rt)?;
    forged::write_runs(rt)?;
    forged::write_bytes_after(rt)?;
    forged::write_arguments(rt)?;
    forged::write_totals(rt)?;
    forged::write_extras(rt)
}

fn main(rt: HostRuntime) -> io::Result<()> {
    write_fresh_states(&rt)?;
    write_messages(&rt)?;
    limit::write_limits(&rt)?;
    limit::write_extra_limits(&rt)?;
    write_forged_states(&rt)
}
