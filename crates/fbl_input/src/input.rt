//! Reading an input whole.

ghost use Rattle.std.specs.Prelude.{◌≡◌, ◌≤◌, length, IfOk, IfErr, IfSome};
ghost use Rattle.fbl_input.specs.Faults.{IsUnread, StopsReading};
ghost use Rattle.fbl_input.specs.Shapes.{longest};

use crate::fault::RunFault;
use crate::input_fault::InputFault;
use crate::input_kind::InputKind;
use crate::shapes::LONGEST;
use std::alloc::Global;
use std::io::{self, ErrorKind};

/// How many interruptions are borne while an input is read.
const TRIES: u32 = 1000;

const BUFFER: usize = 8192;

/// Reads all there is, up to the longest input, 1,048,576 bytes. It stops after one byte more: a reader that
/// never ends is `TooLong`. An interrupted read is tried again, at most 1000 times in all; the next interruption, and
/// any other failure, is `Read`.
fn read_bytes<R: io::Read>(alloc: Global, reader: &mut R) -> Result<Vec<u8>, RunFault>
    ensures short { IfOk result (λ v. length v.items ≤ longest) }
    ensures whole { IfOk result (λ v. IfSome (R.remaining reader.old) (λ input. v.items ≡ input)) }
    ensures unread { IfErr result (IsUnread (R.remaining reader.old)) }
    ensures stops { StopsReading (R.remaining reader.old) (R.remaining reader.new) }
{
    let mut input = Vec::new(alloc);
    let mut buffer = [0u8; BUFFER];
    let mut interrupted = 0u32;
    let mut ended = false;
    while !ended && input.len() <= LONGEST {
        let want = BUFFER.min(LONGEST + 1 - input.len());
        match reader.read(&mut buffer[..want]) {
            Ok(0) => ended = true,
            Ok(n) => input.extend_from_slice(&buffer[..n])?,
            Err(e) => {
                if e.kind() != ErrorKind::Interrupted || interrupted == TRIES {
                    return Err(RunFault::Read);
                }
                interrupted += 1;
            }
        }
    }
    if input.len() > LONGEST {
        return Err(RunFault::TooLong);
    }
    Ok(input)
}

/// What the reader has, up to the longest input, or why it cannot be had, as the fault of an input of this kind.
pub fn read_input<R: io::Read>(
    alloc: Global,
    kind: InputKind,
    reader: &mut R,
) -> Result<Vec<u8>, InputFault>
    ensures short { IfOk result (λ v. length v.items ≤ longest) }
    ensures whole { IfOk result (λ v. IfSome (R.remaining reader.old) (λ input. v.items ≡ input)) }
    ensures unread { IfErr result (λ fault. (fault.kind ≡ kind) × IsUnread (R.remaining reader.old) fault.fault) }
{
    read_bytes(alloc, reader).map_err(|fault| InputFault::new(kind, fault, Vec::new(alloc)))
}
