//! Why reading or writing ends before its time.

/// Why reading or writing ends before its time.
#[derive(Clone, Copy)]
pub enum Stop {
    /// What stands at this byte, from 0, is no packet that may stand there, or is cut off.
    Broken(u64),
    /// A read failed.
    Read,
    /// A write failed.
    Write,
    /// Memory ran out.
    Memory,
}
