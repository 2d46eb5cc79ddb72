//! What a body is said to be.

ghost use Rattle.std.specs.Prelude.{◌↔◌, IsTrue};
ghost use Rattle.signer_calls.specs.Doors.{HasBytesType};

use crate::target::is_same;
use base_hosts::single;
use http::HeaderMap;

/// Whether there is one `Content-Type`, that of bytes.
pub(crate) fn has_bytes_type(headers: &HeaderMap) -> bool
    ensures { IsTrue result ↔ HasBytesType headers.now }
{
    match single(headers, "content-type") {
        Some(value) => is_same(value.as_bytes(), b"application/octet-stream"),
        None => false,
    }
}
