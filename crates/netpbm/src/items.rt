// Items off the front of what is left of the bytes.
ghost use Rattle.std.specs.Prelude.{◌≡◌, false, drop};
ghost use Rattle.std.specs.List.{position_or_len};
ghost use Rattle.netpbm.specs.Faults.{fault_number};
ghost use Rattle.netpbm.specs.Reads.{white, opens, line_end, byte, magic, skipped, gap, value_on, after_digits, digits, one_white};
ghost use Rattle.netpbm.specs.Parses.{header_by};
ghost use Rattle.netpbm.specs.Seen.{seen, seen_rest, TakesIf, capped, capped_read, capped_numeral};

use crate::fault::Fault;
use crate::header::Header;

fn is_white(b: u8) -> bool
    ensures { result ≡ white b }
{
    matches!(b, b' ' | b'\t'..=b'\r')
}

// Whether white space or a comment begins.
fn is_gap(b: u8) -> bool
    ensures { result ≡ opens b }
{
    is_white(b) || b == b'#'
}

fn is_line_end(b: u8) -> bool
    ensures { result ≡ line_end b }
{
    matches!(b, b'\n' | b'\r')
}

// What follows the first byte, which must pass the test; else the fault.
fn take_if<F: Fn(u8) -> bool>(bytes: &[u8], passes: F, fault: Fault) -> Result<&[u8], Fault>
    requires { F.IsAlwaysCallable passes }
    ensures { TakesIf (F.post passes) (fault_number fault) bytes.now (seen_rest result) }
{
    match bytes {
        [] => Err(Fault::CutShort),
        [b, rest @ ..] if passes(*b) => Ok(rest),
        _ => Err(fault),
    }
}

// The byte that must stand there.
fn take_byte(bytes: &[u8], wanted: u8) -> Result<&[u8], Fault>
    ensures { seen_rest result ≡ byte wanted bytes.now }
{
    take_if(bytes, |b| b == wanted, Fault::NotPgm)
}

fn take_magic(bytes: &[u8]) -> Result<&[u8], Fault>
    ensures { seen_rest result ≡ magic bytes.now }
{
    let rest = take_byte(bytes, b'P')?;
    take_byte(rest, b'5')
}

// What stands from the end of the line on.
fn skip_line(bytes: &[u8]) -> &[u8]
    ensures { result.now ≡ drop (position_or_len line_end bytes.now) bytes.now }
{
    let end = bytes
        .iter()
        .position(|b| is_line_end(*b))
        .unwrap_or(bytes.len());
    &bytes[end..]
}

// What follows white space and comments.
fn skip_gap(bytes: &[u8]) -> &[u8]
    ensures { result.now ≡ skipped false bytes.now }
{
    let mut rest = bytes;
    loop {
        rest = match rest {
            [b'#', comment @ ..] => skip_line(comment),
            [b, more @ ..] if is_white(*b) => more,
            _ => return rest,
        };
    }
}

fn take_gap(bytes: &[u8]) -> Result<&[u8], Fault>
    ensures { seen_rest result ≡ gap bytes.now }
{
    take_if(bytes, is_gap, Fault::NoNumber)?;
    Ok(skip_gap(bytes))
}

// The number of the digits at the front, or the largest usize where it is larger, and what follows them.
fn read_digits(bytes: &[u8]) -> (usize, &[u8])
    ensures value { result.0 ≡ capped (value_on 0 bytes.now) }
    ensures rest { result.1.now ≡ after_digits bytes.now }
{
    let mut rest = bytes;
    let mut n: usize = 0;
    while let [b @ b'0'..=b'9', more @ ..] = rest {
        n = n.saturating_mul(10).saturating_add(usize::from(*b - b'0'));
        rest = more;
    }
    (n, rest)
}

fn take_digits(bytes: &[u8]) -> Result<(usize, &[u8]), Fault>
    ensures { seen result ≡ capped_read (digits bytes.now) }
{
    take_if(bytes, |b| b.is_ascii_digit(), Fault::NoNumber)?;
    Ok(read_digits(bytes))
}

// White space, and then a number.
fn take_numeral(bytes: &[u8]) -> Result<(usize, &[u8]), Fault>
    ensures { seen result ≡ capped_numeral bytes.now }
{
    let rest = take_gap(bytes)?;
    take_digits(rest)
}

fn take_white(bytes: &[u8]) -> Result<&[u8], Fault>
    ensures { seen_rest result ≡ one_white bytes.now }
{
    take_if(bytes, is_white, Fault::NoNumber)
}

// The header, with sizes that are too large for a usize capped.
pub fn take_header(bytes: &[u8]) -> Result<(Header, &[u8]), Fault>
    ensures { seen result ≡ header_by capped_numeral bytes.now }
{
    let rest = take_magic(bytes)?;
    let (width, rest) = take_numeral(rest)?;
    let (height, rest) = take_numeral(rest)?;
    if width == 0 || height == 0 {
        return Err(Fault::ZeroSize);
    }
    let (maxval, rest) = take_numeral(rest)?;
    let Ok(maxval @ 1..) = u16::try_from(maxval) else {
        return Err(Fault::BadMaxval);
    };
    let rest = take_white(rest)?;
    let head = Header {
        width,
        height,
        maxval,
    };
    Ok((head, rest))
}
