//! What is counted in a valid bag, with the digests of its files.

use bag_text::BagReport;

/// What is said of a valid bag, and the SHA-256 of each of its files, in their order.
#[derive(Debug, Drop)]
pub struct DigestedReport {
    pub report: BagReport,
    pub digests: Vec<[u8; 32]>,
}
