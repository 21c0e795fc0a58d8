//! Formats of bytes: what is spelled how, how it is read, and where reading stops. `specs/Format.antt`
//! describes formats; each reader and writer of a field is told by its format. `proofs/Exact.antt` says what
//! makes a format exact, and `proofs/Goes.antt` that what begins a spelling, as far as reading can tell, is
//! the front of one.
#![tactic(auto)]

pub mod between;
pub mod items;
pub mod literal;
pub mod name;
pub mod put;
pub mod read;
pub mod text;
pub mod unread;

pub use between::{u32_between, u64_between, u128_between};
pub use items::items_at;
pub use literal::after_literal;
pub use name::name_at;
pub use put::{
    put_byte, put_digest, put_flag, put_i64, put_name, put_text, put_u32, put_u64, put_u128,
};
pub use read::{byte_at, digest_at, flag_at, i64_at, u32_at, u64_at};
pub use text::text_at;
pub use unread::Unread;
