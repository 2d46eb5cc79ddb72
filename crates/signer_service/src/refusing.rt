//! The response that refuses a call.

ghost use Rattle.std.specs.Prelude.{◌≡◌, ◌≢◌, OnOk};
ghost use Rattle.http_server.specs.Response.{IsBlank, IsResponse};
ghost use Rattle.signer_calls.specs.CallRefusals.{call_refusal_status};
ghost use Rattle.signer_service.specs.Refusals.{IsRefusalTold, call_line, methods_text, refusal_fields};
ghost use Rattle.signer_service.specs.Responses.{IsReady, fields_of_kind};

use crate::telling::put_named;
use crate::writing::{Kind, make_ready};
use http::header::{HeaderName, HeaderValue};
use http_server::Response;
use signer_calls::{CallRefusal, Methods};
use std::alloc::AllocError;

// Refuses a call of which nothing was done.
pub(crate) fn refuse(response: &mut Response, refusal: CallRefusal) -> Result<(), AllocError>
    requires { IsBlank response.old }
    ensures { OnOk result (IsRefusalTold refusal response.new) }
{
    make_ready(response, Kind::Text)?;
    if let CallRefusal::Method(methods) = refusal {
        response.add_header(HeaderName::from_static("allow"), allowed(methods))?;
    }
    tell_refused(response, refusal);
    Ok(())
}

fn allowed(methods: Methods) -> HeaderValue
    ensures { result.bytes ≡ methods_text methods }
{
    match methods {
        Methods::Post => HeaderValue::from_static("POST"),
        Methods::Get => HeaderValue::from_static("GET, HEAD"),
    }
}

// Tells a refusal, whose fields are there.
pub(crate) fn tell_refused(response: &mut Response, refusal: CallRefusal)
    requires { IsReady (refusal_fields refusal) response.old }
    ensures { IsRefusalTold refusal response.new }
{
    response.status = refusal.status();
    put_named(
        &mut response.body,
        b"refused call ",
        refusal.number(),
        refusal.name(),
    );
}
