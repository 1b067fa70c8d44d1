ghost use Rattle.std.specs.Prelude.{◌≤◌, length, IfSome};

use crate::digits::Bad;

/// The first of some entries, each of which has its length in two bytes before it, and the rest.
pub fn split_entry(entries: &[u8]) -> Option<(&[u8], &[u8])>
    ensures { IfSome result (λ cut. length cut.0.now ≤ 65535) }
{
    let [high, low, behind @ ..] = entries else {
        return None;
    };
    behind.split_at_checked(u16::from_be_bytes([*high, *low]) as usize)
}

/// Puts bytes after others as an entry.
pub(crate) fn put_entry(bytes: &[u8], into: &mut Vec<u8>) -> Result<(), Bad> {
    let Ok(length) = u16::try_from(bytes.len()) else {
        return Err(Bad::NoRow);
    };
    into.extend_from_slice(&length.to_be_bytes())?;
    into.extend_from_slice(bytes)?;
    Ok(())
}
