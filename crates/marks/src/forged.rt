// Forged marks, and a return to each.
ghost use Rattle.std.specs.Prelude.{◌<◌, IsTrue, nat_lt};
ghost use Rattle.std.specs.List.{list_all};

use crate::calls::{NAME, write_recall};
use known_answers::forged;
use std::io;

// Two marks of a name: an open state of U, and a closed one that gave out one extra block. The second has other values for one byte and for
// its last byte.
fn two_marks(at: usize, value: u8, last: u8) -> [u8; 128]
    requires { at < 64 }
{
    let mut marks = [165u8; 128];
    let _ = sponge::mark(forged(1, 0, 20, 2, 0), NAME, &mut marks, 0);
    let _ = sponge::mark(forged(1, 1, 20, 20, 1), NAME, &mut marks, 1);
    marks[64 + at] = value;
    marks[127] = last;
    marks
}

// Rows of a byte of the mark, its value, and the last byte's value: a return from a closed state of S, where the second mark is forged.
fn write_rows(rt: &impl Print, rows: &[(usize, u8, u8)]) -> io::Result<()>
    requires { IsTrue (list_all (λ row. nat_lt row.0 64) rows.now) }
{
    for &(at, value, last) in rows {
        let marks = two_marks(at, value, last);
        println!(rt; "byte {at} is {value}, byte 63 is {last}")?;
        write_recall(rt, forged(3, 1, 100, 11, 0), &marks, 2)?;
    }
    Ok(())
}

// Each field of a mark: name, instance, phase, total, runs, extra blocks, bits, the bytes after them, and the last two. The third row has the
// byte that the mark had.
pub fn write_fields(rt: &impl Print) -> io::Result<()> {
    let rows = [
        (0, 65, 0),
        (15, 65, 0),
        (16, 1, 0),
        (16, 0, 0),
        (16, 2, 0),
        (16, 4, 0),
        (16, 255, 1),
        (17, 0, 0),
        (17, 2, 0),
        (17, 2, 128),
        (18, 1, 0),
        (21, 23, 0),
        (21, 24, 0),
        (22, 1, 0),
        (25, 21, 0),
        (26, 1, 0),
        (29, 2, 0),
        (46, 1, 0),
        (47, 1, 0),
        (61, 1, 0),
        (62, 1, 0),
        (62, 128, 128),
        (63, 1, 1),
        (63, 128, 128),
    ];
    write_rows(rt, &rows)
}
