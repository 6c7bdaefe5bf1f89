//! The text for a reply that refuses.
ghost use Rattle.std.specs.Prelude.{◌≡◌, ◌≤◌, ◌++◌, codes, length};
ghost use Rattle.std.specs.Int.{to_be_bytes, w32};
ghost use Rattle.hex.specs.Hex.{encode_lower};
ghost use Rattle.booth_tools.specs.Client.{refused_text};
ghost use Rattle.booth_tools.specs.MoveRun.{stranded_text};

use booth_base::Name;
use booth_outcomes::ErrorLine;
use booth_outcomes::texts::line_of;
use booth_wire::results;

// Returns eight digits.
fn hexadecimal(number: u32) -> [u8; 8]
    ensures { result ≡ encode_lower (to_be_bytes w32 number) }
{
    let mut digits = [0; 8];
    let bytes = number.to_be_bytes();
    hex::encode_to_slice(bytes.as_slice(), &mut digits).unwrap();
    digits
}

// Returns the text for a result that has no text of its own.
fn other_text(code: u32) -> ErrorLine
    ensures text { result ≡ codes "result " ++ encode_lower (to_be_bytes w32 code) }
    ensures short { length result ≤ 40 }
{
    let mut line = ErrorLine::none();
    line.put(b"result ");
    line.put(&hexadecimal(code));
    line
}

/// Returns the text for this result.
pub(crate) fn refused_text(code: u32) -> ErrorLine
    ensures text { result ≡ refused_text code }
    ensures short { length result ≤ 40 }
{
    match code {
        results::FAIL => line_of(b"failed"),
        results::IARG => line_of(b"invalid argument"),
        results::NATR => line_of(b"no such attribute"),
        results::PEND => line_of(b"granted, but the record is not kept yet"),
        results::XPRG => line_of(b"handler failed"),
        results::APRQ => line_of(b"prerequisite not met"),
        results::TIDL => line_of(b"ticket is not granted"),
        results::OVER => line_of(b"ticket is granted elsewhere"),
        results::BUSY => line_of(b"busy"),
        results::REDR => line_of(b"ticket is owned by another site"),
        code => other_text(code),
    }
}

/// Returns the text for a ticket that was released, and whose grant was answered with this result.
pub(crate) fn stranded_text(ticket: &Name, code: u32) -> ErrorLine
    ensures { result ≡ stranded_text ticket.now code }
{
    let mut line = ErrorLine::none();
    line.put(b"ticket ");
    line.put(ticket.bytes());
    line.put(b" is revoked, and its grant was refused: ");
    line.put(refused_text(code).bytes());
    line
}
