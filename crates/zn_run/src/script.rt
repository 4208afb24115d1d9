// The pieces of a script, read one at a time behind what is kept of it.
ghost use Rattle.std.specs.Prelude.{◌≡◌, ◌≤◌, MatchResult, length, take};
ghost use Rattle.zn_lines.specs.declared.limits.TheConstants.{LINE_LIMIT, SCRIPT_LIMIT};
ghost use Rattle.zn_lines.specs.Transcript.{OneLine};
ghost use Rattle.zn_run.specs.Script.{IsPiece, NoPiece};

use zn_base::{ReadFault, Source};
use zn_lines::SCRIPT_LIMIT;

/// The most bytes that are read at once.
const PIECE: usize = 65536;

/// The bytes of the buffer of lines: a line that no newline has ended yet, and a piece.
pub const BUFFER: usize = 131072;

/// Reads a piece into the buffer, behind the bytes that are kept there, and answers its length, which is 0 only at the
/// end. So many bytes were taken before. None of those that are kept ends a line.
pub fn read_piece<S: Source>(
    source: &mut S,
    buffer: &mut [u8],
    kept: usize,
    taken: usize,
) -> Result<usize, ReadFault>
    requires sized { length buffer.old ≡ BUFFER }
    requires fits { kept ≤ LINE_LIMIT }
    requires within { taken ≤ SCRIPT_LIMIT }
    requires one { OneLine (take kept buffer.old) }
    ensures sized { length buffer.new ≡ BUFFER }
    ensures front { take kept buffer.new ≡ take kept buffer.old }
    ensures piece { MatchResult result
        (λ count. IsPiece count kept taken buffer.new (S.state source.old) (S.state source.new))
        (λ _. NoPiece (S.state source.old) (S.state source.new)) }
{
    let room = (SCRIPT_LIMIT + 1 - taken).min(PIECE);
    source.read(&mut buffer[kept..kept + room])
}
