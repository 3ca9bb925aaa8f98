// The lent list of a panel, one entry for each detector.

// A detector on the panel: its address, and how many ranges it holds.
#[repr(C)]
#[derive(Clone, Copy)]
pub struct Entry {
    pub address: u32,
    pub held: u32,
}
