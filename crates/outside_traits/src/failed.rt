//! The answer of a call on the outside that failed.

use thiserror::Error;

/// A call on a source, a sink or a store failed. Its object's count of faults rose.
#[derive(Clone, Copy, Debug, PartialEq, Eq, Error)]
#[error("a call on the outside failed")]
pub struct Failed;
