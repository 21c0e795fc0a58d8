//! A log of bodies in one file. Each body stands behind a gate that is opened after the body is stable, so
//! that a crash leaves the bodies without the new one or with it.
#![tactic(auto)]

pub mod log;
pub mod reading;
pub mod refusal;

pub use log::Log;
pub use reading::one_reading;
pub use refusal::LogRefusal;
