// The registers in the middle of P, for the second supplier's waveforms (document 02, 2.6): from Appendix B's first state of each instance,
// at every 8th clock up to 4b, the step count, L's ten bits, bit 0 first, and the state. Each line is a call of `steps` from that state, and
// `steps_back` leads back to it. What must be written, in `stdout`, comes from hosts/rust/reference; the last state of each table is Appendix
// B's second.
#![tactic(auto)]

ghost use Rattle.std.specs.Prelude.{◌≤◌};

use known_answers::{FIRST_OF_D, FIRST_OF_S, FIRST_OF_U, Hex, Refused};
use std::io;

// Steps up to a clock, writes a line with the registers there, and steps back.
fn write_clock(rt: &impl Print, instance: u32, count: u32, state: &mut [u8]) -> io::Result<()> {
    match permutation::steps(instance, 8, 1023, count, state) {
        Ok(l) => println!(rt; "{count} {l:010b} {}", Hex(state))?,
        refused => print!(rt; "{}", Refused(refused))?,
    }
    print!(rt;
        "{}",
        Refused(permutation::steps_back(instance, 8, 1023, count, state))
    )
}

// The table of an instance under a heading, from a first state. P has `groups` groups of 8 steps. The instance is the number that the
// operations take.
fn write_clocks<const B: usize>(
    rt: &impl Print,
    heading: &str,
    instance: u32,
    groups: u32,
    first: &[u8; B],
) -> io::Result<()>
    requires { groups ≤ 128 }
{
    println!(rt; "{heading}")?;
    let mut state = *first;
    for group in 0..=groups {
        write_clock(rt, instance, 8 * group, &mut state)?;
    }
    Ok(())
}

fn main(rt: HostRuntime) -> io::Result<()> {
    write_clocks(&rt, "U-QUARK", 1, 68, &FIRST_OF_U)?;
    write_clocks(&rt, "D-QUARK", 2, 88, &FIRST_OF_D)?;
    write_clocks(&rt, "S-QUARK", 3, 128, &FIRST_OF_S)
}
