// The ring of hourly wear samples (request f of document 02): the last 512 hours, and what is told of them.
#![tactic(auto)]

// An hour stands in the slot of its sequence number modulo 512. Every value is a ring.
#[repr(C)]
#[derive(Clone, Copy)]
pub struct Ring {
    // Whether there is a sample (0: none), and the newest one's sequence number.
    pub any: u16,
    pub newest: u16,
    // By slot: the number of the sample there, and one more than its height; 0 where the hour is blank.
    pub numbers: [u16; 512],
    pub heights: [u16; 512],
}
