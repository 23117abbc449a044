//! Writing records.
ghost use Rattle.std.specs.Prelude.{◌++◌, ◌∷◌, []};
ghost use Rattle.hum_score.specs.Row.{text_of};
ghost use Rattle.hum_engine.specs.Writing.{HasWritten};

use hum_record::Record;
use hum_text::calls::Sink;

/// A write or a flush gave an error, or a write took no byte.
#[derive(Clone, Copy)]
pub struct WriteFailed;

/// Writes a text by as many writes as it takes.
///
/// # Errors
/// A write that fails, or that takes no byte. A prefix of the text was written then.
#[inline(always)]
fn write_all<W: Sink>(sink: &mut W, text: &[u8]) -> Result<(), WriteFailed>
    ensures { HasWritten W.Sink sink.old sink.new text.now result }
{
    if sink.write_near(text) {
        return Ok(());
    }
    write_on(sink, text)
}

/// The same where it can't be had at once.
#[inline(never)]
fn write_on<W: Sink>(sink: &mut W, text: &[u8]) -> Result<(), WriteFailed>
    ensures { HasWritten W.Sink sink.old sink.new text.now result }
{
    let mut rest = text;
    while !rest.is_empty() {
        match sink.write(rest) {
            Ok(0) => return Err(WriteFailed),
            Ok(n) => rest = &rest[n..],
            Err(_) => return Err(WriteFailed),
        }
    }
    Ok(())
}

/// Writes a record's text and LF.
///
/// # Errors
/// As [`write_all`]'s.
#[inline(always)]
pub fn write_record<W: Sink>(sink: &mut W, row: &Record) -> Result<(), WriteFailed>
    ensures { HasWritten W.Sink sink.old sink.new
        (text_of row.now ++ 10 ∷ []) result }
{
    write_all(sink, row.text_lf())
}
