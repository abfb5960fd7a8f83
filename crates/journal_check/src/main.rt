// The check program (document 01, "Record and journal"): reads a key and then a journal from standard input, and prints one line, `accepted`,
// records and runs, or `refused`, number and place. Where reading or writing fails, a line on standard error says so.
//
// What `report` answers is proved, and that the buffer has the size that the law `FirstBytes.report_of_first` of `journal` asks for. That
// `input::gather` fills it with the first bytes of a reader whose bytes are known is proved too; no contract of the kit says which bytes
// standard input gives, nor when a read of it fails: the host's tests try it (hosts/rust/tests/journal_check.rs).
#![tactic(auto)]

ghost use Rattle.std.specs.Prelude.{◌≡◌, ◌≤◌, ◌<◌, length};
ghost use Rattle.journal.specs.Report.{most_read};

use input::{ReadFailed, gather};
use journal::{MOST_READ, Printed};

// How many bytes to report on where a read failed, which is said on standard error. Fewer than a key are refused by line 5. Else it is the
// whole buffer, which line 16 refuses where the key is blank, and line 9 as over-long where it is not, so that a failed read is never
// accepted.
fn after_failed_read(rt: &impl Eprint, done: usize) -> usize
    ensures { (result ≤ most_read) × (done < 16 → result ≡ done) × (16 ≤ done → result ≡ most_read) }
{
    let _ = rt.eprintln("journal_check: reading standard input failed");
    if done < 16 { done } else { MOST_READ }
}

// Reads until the buffer is full, the input ends or a read fails, and says how many bytes to report on.
fn read_input(rt: &(impl Input + Eprint), buffer: &mut [u8]) -> usize
    requires { length buffer.old ≡ most_read }
    ensures { result ≤ length buffer.old }
{
    match gather(&mut rt.reader(), buffer) {
        Ok(count) => count,
        Err(ReadFailed { after }) => after_failed_read(rt, after),
    }
}

// Prints a line, which `report` gives as bytes, and no text.
fn print(rt: &(impl Print + Eprint), line: &[u8]) {
    if rt.write_all(line).is_err() {
        let _ = rt.eprintln("journal_check: writing standard output failed");
    }
}

fn main(rt: HostRuntime) {
    let mut buffer = [0u8; MOST_READ];
    let size = read_input(&rt, &mut buffer);
    let Printed { bytes, len } = journal::report(&buffer[..size]);
    print(&rt, &bytes[..len]);
}
