// All the bytes of a source.
ghost use Rattle.std.specs.Prelude.{◌≡◌, ◌↔◌, ◌+◌, ◌-◌, ◌^◌, ◌<◌, ◌≤◌, [], ◌++◌, List, ℕ, length, drop, true, false, vec_len, IfOk, OnOk, IfErr, IfSome};
ghost use Rattle.std.specs.Io.KnownBytes.{Consumes, IsAtEnd, Keeps};
ghost use Rattle.plc_io.specs.declared.reading.ReadError.TheVariants.{NoMemory};
ghost use Rattle.plc_io.specs.Faults.{Rose};
ghost use Rattle.plc_io.specs.Reading.{IsAnswerTo};
ghost use Rattle.plc_io.specs.Told.{WhereTold};

use crate::source::{Got, Source};
use std::alloc::{AllocError, Global};
use thiserror::Error;

/// How many bytes one read asks for at most.
const LARGEST_PIECE: usize = 65_536;

/// Why a source was not read to its end.
#[derive(Clone, Copy, Debug, PartialEq, Eq, Error)]
pub enum ReadError {
    /// A read failed.
    #[error("a read failed")]
    ReadFault,
    /// There are more bytes than the limit.
    #[error("too many bytes")]
    TooLong,
    /// Memory ran out.
    #[error("out of memory")]
    NoMemory,
}

impl From<AllocError> for ReadError {
    ghost from_gives = { λ _ e. e ≡ NoMemory };

    fn from(_: AllocError) -> Self {
        ReadError::NoMemory
    }
}

/// Reads a source to its end, where it has at most `limit` bytes.
///
/// At most one byte more than that is read. On an error the bytes read so far are gone.
pub fn read_all<S: Source>(alloc: Global, src: &mut S, limit: u32) -> Result<Vec<u8>, ReadError>
    ensures all { IfOk result (λ v. WhereTold (S.left src.old) (S.left src.new)
        (λ bytes rest. (bytes ≡ v.items) × (rest ≡ []))) }
    ensures within { IfOk result (λ v. vec_len v ≤ limit) }

    // What was read is gone from the front, and more than the limit was read exactly where it is too long.
    ensures gone { WhereTold (S.left src.old) (S.left src.new)
        (λ bytes rest. rest ≡ drop (length bytes - length rest) bytes) }
    ensures too_long { WhereTold (S.left src.old) (S.left src.new)
        (λ bytes rest. (result ≡ Err ReadError.TooLong) ↔ (limit < length bytes - length rest)) }
    ensures no_more { WhereTold (S.left src.old) (S.left src.new)
        (λ bytes rest. length bytes ≤ length rest + limit + 1) }

    ensures cause { result ≡ Err ReadError.ReadFault → Rose (S.faults src.old) (S.faults src.new) }
    ensures later { S.faults src.old ≤ S.faults src.new }
    ensures complete { ¬ Rose (S.faults src.old) (S.faults src.new)
        → IfSome (S.left src.old) (λ bytes. IsAnswerTo bytes limit result) }
{
    let mut piece = zeros(alloc, LARGEST_PIECE)?;
    let mut bytes = Vec::new(alloc);
    'pieces: while read_piece(src, &mut piece, &mut bytes, limit as usize)? {}
    Ok(bytes)
}

/// So many zeros.
// Apart from its callers, since a proof that sees a long literal count writes the whole list out.
pub(crate) fn zeros(alloc: Global, count: usize) -> Result<Vec<u8>, AllocError>
    ensures { IfOk result (λ v. vec_len v ≡ count) }
{
    vec![in alloc; 0; count]
}

// Reads one more piece onto the end of `bytes`, and says whether there was one.
fn read_piece<S: Source>(
    src: &mut S,
    piece: &mut [u8],
    bytes: &mut Vec<u8>,
    limit: usize,
) -> Result<bool, ReadError>
    requires room { 0 < length piece.old }
    requires within { vec_len bytes.old ≤ limit }
    requires small { limit < 2 ^ 32 }

    ensures more { OnOk result ((got : List ℕ) × (bytes.new.items ≡ bytes.old.items ++ got)
        × Consumes (S.left src.old) (S.left src.new) got) }
    ensures grows { result ≡ Ok true → vec_len bytes.old < vec_len bytes.new }
    ensures end { result ≡ Ok false → IsAtEnd (S.left src.old) }
    ensures within { OnOk result (vec_len bytes.new ≤ limit) }
    ensures err { IfErr result (λ e. (got : List ℕ) × Consumes (S.left src.old) (S.left src.new) got
        × ((e ≡ ReadError.TooLong) ↔ (limit < vec_len bytes.old + length got))
        × (vec_len bytes.old + length got ≤ limit + 1)) }
    ensures cause { result ≡ Err ReadError.ReadFault → Rose (S.faults src.old) (S.faults src.new) }
    ensures later { S.faults src.old ≤ S.faults src.new }
{
    // One byte more than fits tells that there are too many.
    let wanted = piece.len().min(limit - bytes.len() + 1);
    let front = &mut piece[..wanted];
    match src.read(front) {
        Got::Bytes(count) if count > limit - bytes.len() => Err(ReadError::TooLong),
        Got::Bytes(count) => {
            bytes.extend_from_slice(&front[..count])?;
            Ok(true)
        }
        Got::End => Ok(false),
        Got::Failed => Err(ReadError::ReadFault),
    }
}
