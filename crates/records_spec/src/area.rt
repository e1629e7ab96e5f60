// The area that records tile, in an advertisement or a scan response.
use octets::error::Error;

// The first bad record of an area.
#[derive(Clone, Copy)]
pub struct BadRecord {
    // How many good ones stand before it.
    pub count: usize,
    pub at: usize,
    pub error: Error,
}
