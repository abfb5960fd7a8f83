// Sealing and the journal check for a C host.
ghost use Rattle.std.specs.Prelude.{◌≡◌};
ghost use Rattle.refusals.specs.Outcome.{number_of, place_of};
ghost use Rattle.records.specs.Record.{today};
ghost use Rattle.records.specs.Sealing.{seal_outcome, seal_bytes};
ghost use Rattle.journal.specs.Journal.{verify_outcome};

use refusals::number_of;

// Writes body and seal to the record. 0; or the number of the first of lines 5, 16 and 10 that holds, and the record is untouched. The
// body must not lie in the record's buffer.
#[unsafe(no_mangle)]
pub extern "C" fn journal_seal(key: &[u8], previous: &[u8], body: &[u8], record: &mut [u8]) -> u32
    ensures number { result ≡ number_of (seal_outcome key.now previous.now body.now «record».old) }
    ensures bytes { «record».new ≡ seal_bytes key.now previous.now body.now «record».old }
{
    number_of(journal::seal(key, previous, body, record))
}

// Checks a journal. 0; or the number of the first of lines 5, 16 and 9 that holds, else of lines 10, 11 and 12 record by record.
#[unsafe(no_mangle)]
pub extern "C" fn journal_verify(key: &[u8], journal: &[u8]) -> u32
    ensures { result ≡ number_of (verify_outcome today key.now journal.now) }
{
    number_of(journal::verify(key, journal))
}

// The place at which `journal_verify` refuses the same inputs: the record's index for lines 10 to 12, else 0. 0 where it accepts them.
#[unsafe(no_mangle)]
pub extern "C" fn journal_refused_at(key: &[u8], journal: &[u8]) -> u64
    ensures { result ≡ place_of (verify_outcome today key.now journal.now) }
{
    match journal::verify(key, journal) {
        Ok(_) => 0,
        Err(refusal) => refusal.place as u64,
    }
}
