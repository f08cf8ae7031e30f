// The bytes of an input that decide which plan it holds, if any.
ghost use Rattle.std.specs.Prelude.{◌≡◌, ◌≢◌, take, IfErr, IfOk, IfSome};
ghost use Rattle.std.specs.Io.KnownBytes.{Consumes};
ghost use Rattle.std.specs.IoError.{error_kind};
ghost use Rattle.bounded.specs.Items.{items_of};
ghost use Rattle.planfile.specs.File.{ReadsAlike};

use crate::LONGEST;
use bounded::Bounded;
use std::io;
use std::io::{ErrorKind, Read};

/// A file of so many bytes is read, or refused, as one that goes on: it is longer than every plan file.
pub const ENOUGH: usize = LONGEST + 1;

/// The first bytes of an input, as many as decide what it is read as, and no more: all, where there are fewer. A read that
/// was interrupted is made again; an error is the reader's, or comes after 2^64 turns.
pub fn deciding_bytes<R: Read>(reader: &mut R) -> io::Result<Bounded<u8, ENOUGH>>
    ensures first { IfOk result (λ first. IfSome (R.remaining reader.old) (λ input.
        items_of first ≡ take ENOUGH input)) }
    ensures no_more { IfOk result (λ first.
        Consumes (R.remaining reader.old) (R.remaining reader.new) (items_of first)) }
    ensures decide { IfOk result (λ first.
        IfSome (R.remaining reader.old) (ReadsAlike (items_of first))) }
    ensures retried { IfErr result (λ e. error_kind e ≢ ErrorKind.Interrupted) }
{
    let mut first = Bounded::new(0);
    let mut more = [0; ENOUGH];
    // The turns are counted, since a reader may be interrupted for ever.
    for _ in 0..u64::MAX {
        let room = ENOUGH - first.len();
        if room == 0 {
            return Ok(first);
        }
        match reader.read(&mut more[..room]) {
            Ok(0) => return Ok(first),
            Ok(n) => first.extend(&more[..n]),
            Err(e) if e.kind() == ErrorKind::Interrupted => {}
            Err(e) => return Err(e),
        }
    }
    Err(ErrorKind::TimedOut.into())
}
