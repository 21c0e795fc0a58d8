//! Streams as a plan names them.
ghost use Rattle.std.specs.Prelude.{◌≡◌, ℕ, List, map, bytes_eq};
ghost use Rattle.std.specs.List.{position};
ghost use Rattle.rows_core.specs.declared.schema.Column.{Column};
ghost use Rattle.plan_binder.specs.Binding.{place_of, is_there};

use rows_core::{Name, Schema};

/// A stream, with its name and its columns. Who keeps streams lends them as they are, without a copy.
pub trait Stream {
    ghost name_of: { Self → List ℕ };

    ghost columns_of: { Self → List Column };

    fn name(&self) -> &Name
        ensures { result.now ≡ name_of self.now };

    fn schema(&self) -> &Schema
        ensures { result.now ≡ columns_of self.now };
}

/// The place of the stream with this name, counted from 0.
pub fn stream_place<S: Stream>(streams: &[S], name: &[u8]) -> Option<usize>
    ensures { result ≡ place_of (map S.name_of streams.now) name.now }
{
    place_in(streams, name)
}

fn place_in<S: Stream>(streams: &[S], name: &[u8]) -> Option<usize>
    ensures { result ≡ position (λ stream. bytes_eq (S.name_of stream) name.now) streams.now }
{
    streams
        .iter()
        .position(|stream| stream.name().bytes() == name)
}

pub fn stream_is_there<S: Stream>(streams: &[S], name: &[u8]) -> bool
    ensures { result ≡ is_there (map S.name_of streams.now) name.now }
{
    stream_place(streams, name).is_some()
}
