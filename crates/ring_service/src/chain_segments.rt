//! How rings are served in segments.

use crate::permits::Permits;
use line_service::SegmentRules;

/// How rings are served in segments.
#[derive(Clone, Copy)]
pub struct ChainRules<'n> {
    /// The folder of the segments, and whether their files are synced.
    pub files: SegmentRules<'n>,
    /// A segment is due once its journal has this number of lines.
    pub limit: u64,
    /// What a line may do beside calling the rings.
    pub permits: Permits<'n>,
}
