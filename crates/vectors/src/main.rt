// Appendix B of the paper (document 001), run at each width of each instance: the state after the padding of the empty message is
// added, the states that runs of the permutation make of it, as many as the paper lists, the first state again after as many inverses,
// and the digest of the empty message. Then L after 10 and 1,023 steps (document 01, "Sample values"). What must be written, in `stdout`,
// is typed from those documents.
#![tactic(auto)]

use known_answers::{FIRST_OF_D, FIRST_OF_S, FIRST_OF_U, Hex, Refused};
use std::io;

// What Appendix B lists of an instance.
#[derive(Clone, Copy)]
struct Listed {
    name: &'static str,
    // the number that the operations take
    instance: u32,
    widths: &'static [u32],
    // how many states are listed after the first
    runs: u32,
}

const U: Listed = Listed {
    name: "U-QUARK",
    instance: 1,
    widths: &[1, 8],
    runs: 16,
};

const D: Listed = Listed {
    name: "D-QUARK",
    instance: 2,
    widths: &[1, 8],
    runs: 10,
};

const S: Listed = Listed {
    name: "S-QUARK",
    instance: 3,
    widths: &[1, 8, 16],
    runs: 7,
};

// One instance at one width, from the first state that is listed.
fn write_vectors(rt: &impl Print, listed: &Listed, width: u32, state: &mut [u8]) -> io::Result<()> {
    let instance = listed.instance;
    println!(rt; "{}, width {width}", listed.name)?;
    println!(rt; "{}", Hex(state))?;
    (0..listed.runs).try_for_each(|_| {
        print!(rt; "{}", Refused(permutation::permute(instance, width, state)))?;
        println!(rt; "{}", Hex(state))
    })?;
    println!(rt; "inverted")?;
    (0..listed.runs).try_for_each(|_| {
        print!(rt; "{}", Refused(permutation::invert(instance, width, state)))
    })?;
    println!(rt; "{}", Hex(state))?;
    println!(rt; "digest")?;
    print!(rt;
        "{}",
        Refused(sponge::digest(instance, width, b"", 0, state))
    )?;
    println!(rt; "{}", Hex(state))
}

// An instance at each of its widths.
fn write_instance<const B: usize>(
    rt: &impl Print,
    listed: Listed,
    first: &[u8; B],
) -> io::Result<()> {
    for width in listed.widths {
        let mut state = *first;
        write_vectors(rt, &listed, *width, &mut state)?;
    }
    Ok(())
}

// Writes L after some number of steps from all ones. L's steps read no other register; S has the most.
fn write_l(rt: &impl Print, count: u32) -> io::Result<()> {
    print!(rt; "L after {count} steps ")?;
    let mut state = [0u8; 32];
    match permutation::steps(3, 1, 1023, count, &mut state) {
        Ok(l) => println!(rt; "{l:010b}"),
        refused => print!(rt; "{}", Refused(refused)),
    }
}

fn main(rt: HostRuntime) -> io::Result<()> {
    write_instance(&rt, U, &FIRST_OF_U)?;
    write_instance(&rt, D, &FIRST_OF_D)?;
    write_instance(&rt, S, &FIRST_OF_S)?;
    write_l(&rt, 10)?;
    write_l(&rt, 1023)
}
