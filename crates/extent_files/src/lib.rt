//! Files of bytes that are written whole, known by a digest, and read back against it.
#![tactic(auto)]

pub mod digest;
pub mod files;
pub mod read_refusal;
pub mod reading;
pub mod refusal;

pub use digest::digest_of;
pub use files::{drop_file, read_file, write_file};
pub use read_refusal::ReadRefusal;
pub use reading::read_kept;
pub use refusal::FileRefusal;
