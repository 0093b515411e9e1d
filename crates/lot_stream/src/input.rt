ghost use Rattle.std.specs.Prelude.{◌≡◌, ◌≢◌, ◌<◌, ◌≤◌, ◌+◌, ◌++◌, ◌↔◌, ℕ, List, length, vec_len, IfOk, IfErr, IfSome, OnOk, IsErrOf};
ghost use Rattle.std.specs.Io.{ReadsAtMost};
ghost use Rattle.std.specs.Io.KnownBytes.{Consumes, IsAtEnd};
ghost use Rattle.lot_io.specs.Reads.{reads_between};
ghost use Rattle.lot_stream.specs.Input.{EndsFor, EndsWell, TakesIn, TookBefore, chunk_size, longest_input};

use lot_io::CountedRead;
use std::alloc::{AllocError, Global};
use std::io::{self, ErrorKind};
use thiserror::Error;

/// The most bytes that an input may have: 16 MiB.
const LONGEST: usize = 16_777_216;

/// The most calls of `read` that are made on a reader, the interrupted ones included.
const CALLS: usize = 20_000_000;

/// How many bytes a reader is asked for at a time.
const CHUNK: usize = 65_536;

/// Why a reader wasn't read to its end.
#[derive(Clone, Copy, Debug, PartialEq, Eq, Error)]
pub enum SlurpFault {
    /// The reader failed, or wasn't at its end after 20,000,000 calls.
    #[error("the input can't be read")]
    Read,
    /// There are more than 16,777,216 bytes.
    #[error("the input is longer than 16 MiB")]
    TooLong,
    /// There was no memory for the bytes.
    #[error("out of memory")]
    Memory,
}

impl From<AllocError> for SlurpFault {
    ghost use Rattle.std.specs.Prelude.{◌≡◌};
    ghost use Rattle.lot_stream.specs.declared.input.SlurpFault.TheVariants.{Memory};

    ghost from_gives = { λ _ e. e ≡ Memory };

    fn from(_error: AllocError) -> SlurpFault {
        SlurpFault::Memory
    }
}

/// Returns all bytes of a reader up to its end, at most 16 MiB of them. A read that was interrupted is tried again. The error
/// is one of these:
///
/// - `TooLong`: there are more bytes. Up to 64 KiB past the limit are taken from the reader.
/// - `Memory`: there is no memory for the bytes.
/// - `Read`: the reader fails, or isn't at its end after 20,000,000 calls.
///
/// For `Memory` it is proved that no other fault was there. That memory had ended is shown by the tests alone.
pub fn slurp<R: CountedRead>(alloc: Global, reader: &mut R) -> Result<Vec<u8>, SlurpFault>
    // Where the reader's bytes are known, these are all of them, and it is at its end.
    ensures every_byte { IfOk result
        (λ bytes. IfSome (R.remaining reader.old) (λ known. bytes.items ≡ known)) }
    ensures end { OnOk result (IsAtEnd (R.remaining reader.new)) }
    ensures limit { IfOk result (λ bytes. vec_len bytes ≤ longest_input) }

    // An input of at most the limit is never too long. Before a fault the reader has lost bytes at its start alone,
    // more than the limit where they are too many, and at most the limit where not.
    ensures too_long { IsErrOf result SlurpFault.TooLong
        → IfSome (R.remaining reader.old) (λ known. longest_input < length known) }
    ensures taken { IfErr result (λ fault. (taken : List ℕ)
        × Consumes (R.remaining reader.old) (R.remaining reader.new) taken
        × TookBefore fault (length taken)) }

    // Where it is known what the reader's calls came to: none failed where all was read, and each fault has its cause in them.
    ensures calls { IfOk result (λ bytes.
        EndsWell (reads_between (R.calls reader.old) (R.calls reader.new)) (vec_len bytes)) }
    ensures cause { IfErr result
        (EndsFor (reads_between (R.calls reader.old) (R.calls reader.new))) }
{
    let mut bytes = Vec::new(alloc);
    let mut chunk = zeros(alloc, CHUNK)?;
    for _made in 0..CALLS {
        let outcome = reader.read_counted(chunk.as_mut_slice());
        match take_in(&mut bytes, &chunk, outcome)? {
            Intake::Ended => return Ok(bytes),
            Intake::Goes => {}
        }
    }
    Err(SlurpFault::Read)
}

/// Returns so many zero bytes.
fn zeros(alloc: Global, count: usize) -> Result<Vec<u8>, AllocError>
    ensures { IfOk result (λ bytes. vec_len bytes ≡ count) }
{
    vec![in alloc; 0; count]
}

/// Whether a reader is at its end.
enum Intake {
    Ended,
    Goes,
}

/// Puts the bytes that a call of `read` gave behind those that were read. They stand at the start of the chunk.
///
/// A call that gave none ends the input. A call that was interrupted changes nothing. Returns `TooLong` past the limit,
/// `Memory` where there is no memory for the bytes, and `Read` where the call failed otherwise.
fn take_in(
    bytes: &mut Vec<u8>,
    chunk: &[u8],
    outcome: io::Result<usize>,
) -> Result<Intake, SlurpFault>
    requires count { ReadsAtMost outcome chunk.now }
    requires small { vec_len bytes.old ≤ longest_input }
    ensures { TakesIn bytes.old.items chunk.now outcome bytes.new.items result }
{
    match outcome {
        Ok(0) => Ok(Intake::Ended),
        Ok(count) => {
            append(bytes, &chunk[..count])?;
            Ok(Intake::Goes)
        }
        Err(error) if error.kind() == ErrorKind::Interrupted => Ok(Intake::Goes),
        Err(_) => Err(SlurpFault::Read),
    }
}

/// Puts more bytes behind those that were read, where that is no more than the limit.
fn append(bytes: &mut Vec<u8>, more: &[u8]) -> Result<(), SlurpFault>
    requires { vec_len bytes.old ≤ longest_input }
    ensures ok { OnOk result (bytes.new.items ≡ bytes.old.items ++ more.now) }
    ensures too_long { IsErrOf result SlurpFault.TooLong
        ↔ (longest_input < vec_len bytes.old + length more.now) }
    ensures cause { IfErr result (λ fault. fault ≢ SlurpFault.Read) }
{
    if more.len() > LONGEST - bytes.len() {
        return Err(SlurpFault::TooLong);
    }
    bytes.extend_from_slice(more)?;
    Ok(())
}
