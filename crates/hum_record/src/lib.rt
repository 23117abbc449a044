//! Records of a Humdrum score: what one line says, as its kind and its tokens.
//!
//! What a record is, [`hum_score`] says.
//!
//! [`Record::parse_into`] reads a line, and [`Record::retain`] leaves some of its tokens alone;
//! [`RecordBuilder`] makes a record token by token; [`RecordDraft`] does so where it may grow too long.
#![tactic(auto)]

mod bits;
mod body;
mod building;
mod contents;
mod filling;
mod growing;
mod holding;
pub mod iter;
mod leaving;
mod near;
mod nulls;
mod putting;
mod reading;
mod record_draft;
mod room;
mod selection;
mod spare;
mod tokens;
mod wide;

pub use building::RecordBuilder;
pub use contents::{is_barline, is_data, is_filled, is_null};
pub use growing::GrowingText;
pub use hum_score::{Kind, RecordFault, SpinedKind};
pub use nulls::{null_of, null_record};
pub use putting::put_token;
pub use reading::{Beyond, Record, ShortLine};
pub use record_draft::RecordDraft;
pub use selection::Selection;
pub use spare::Spare;

/// How many bytes the text of a record may have.
pub const MOST_BYTES: usize = 1_048_576;
