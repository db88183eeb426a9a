//! The subprotocol that a handshake gives back (TS-0020, 6.1; RFC 6455, 4.2.2).

use http::{HeaderName, HeaderValue, Request, Response, StatusCode};
use std::alloc::Global;
use tungstenite::Callback;
use tungstenite::handshake::server::ErrorResponse;

/// The field of the subprotocols.
const FIELD: &str = "sec-websocket-protocol";

/// Takes every request, and gives back the first offered subprotocol that begins with `oneM2M` and
/// ends with `.json`, where there is one.
#[derive(Clone, Copy, Drop)]
pub(crate) struct PickSubprotocol {
    alloc: Global,
}

impl PickSubprotocol {
    pub(crate) fn new(alloc: Global) -> Self {
        PickSubprotocol { alloc }
    }
}

fn is_of_onem2m(name: &str) -> bool {
    name.starts_with("oneM2M") && name.ends_with(".json")
}

/// The first of the subprotocols of one field that is one of oneM2M in JSON.
fn first_in(value: &HeaderValue) -> Option<&str> {
    match value.to_str() {
        Ok(text) => {
            for name in text.split(',') {
                let name = name.trim();
                if is_of_onem2m(name) {
                    return Some(name);
                }
            }
            None
        }
        Err(_) => None,
    }
}

/// The first offered subprotocol that is one of oneM2M in JSON.
fn first_offered(request: &Request<()>) -> Option<&str> {
    for value in request.headers().get_all(FIELD) {
        if let Some(name) = first_in(value) {
            return Some(name);
        }
    }
    None
}

impl Callback for PickSubprotocol {
    fn on_request(
        self,
        request: &Request<()>,
        mut response: Response<()>,
    ) -> Result<Response<()>, ErrorResponse> {
        if let Some(name) = first_offered(request) {
            match HeaderValue::from_str(self.alloc, name) {
                Ok(value) => {
                    let field = HeaderName::from_static(FIELD);
                    if response.headers_mut().insert(field, value).is_err() {
                        return Err(starved(self.alloc));
                    }
                }
                Err(_) => return Err(starved(self.alloc)),
            }
        }
        Ok(response)
    }
}

/// A refusal for want of memory, of which a callback has no other way to tell.
fn starved(alloc: Global) -> ErrorResponse {
    let mut refusal = Response::new(alloc, None);
    *refusal.status_mut() = StatusCode::INTERNAL_SERVER_ERROR;
    refusal
}
