//! Arithmetic that leaves the numbers.

use thiserror::Error;

/// An exact value is outside of i64.
#[derive(Clone, Copy, Debug, PartialEq, Eq, Error)]
#[error("overflow")]
pub struct Overflow;
