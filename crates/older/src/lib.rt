// The older units' S1D13706 (request d of document 02): its eighteen display registers, and compiling for it. It shares every type with
// the S1D13A05.
#![tactic(auto)]

// Bytes of its display memory.
pub const OLDER_MEMORY: u64 = 81920;
