//! What is read whole: a bundle, or a plan.
ghost use Rattle.std.specs.Prelude.{◌≡◌, ◌≢◌, IfOk, IfErr};
ghost use Rattle.std.specs.IoError.{error_kind};
ghost use Rattle.hum_program.specs.Reads.{AreRead};
ghost use Rattle.hum_program.specs.Endings.{IsUnread};

use crate::ending::Ending;
use std::alloc::Global;
use std::io::{self, ErrorKind, Read};

/// The bytes of a reader, of which so many are wanted and one more.
fn read_up_to<R: Read + Drop>(alloc: Global, reader: R, most: u32) -> io::Result<Vec<u8>>
    ensures { IfOk result (λ bytes. AreRead most (R.remaining reader) bytes.items) }
{
    let mut bytes = Vec::new(alloc);
    reader.take(u64::from(most) + 1).read_to_end(&mut bytes)?;
    Ok(bytes)
}

/// What an error in reading ends with.
pub(crate) fn unread(error: &io::Error) -> Ending
    ensures memory { error_kind error.now ≡ ErrorKind.OutOfMemory → result ≡ Ending.Memory }
    ensures other { error_kind error.now ≢ ErrorKind.OutOfMemory → result ≡ Ending.CannotRead }
    ensures unread { IsUnread result }
{
    if error.kind() == ErrorKind::OutOfMemory {
        Ending::Memory
    } else {
        Ending::CannotRead
    }
}

/// The same bytes, or what the program ends with.
pub(crate) fn read_all<R: Read + Drop>(
    alloc: Global,
    reader: R,
    most: u32,
) -> Result<Vec<u8>, Ending>
    ensures read { IfOk result (λ bytes. AreRead most (R.remaining reader) bytes.items) }
    ensures unread { IfErr result IsUnread }
{
    match read_up_to(alloc, reader, most) {
        Ok(bytes) => Ok(bytes),
        Err(error) => Err(unread(&error)),
    }
}
