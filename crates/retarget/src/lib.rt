//! Requests for other CSEs (TS-0001, 7.2 and 10.2.2).
//!
//! `route_of` tells by the address whether a request stays here, goes on to a registered CSE, or
//! can't go on: no CSE is registered by that CSE-ID, the request comes from a CSE already, or the
//! CSE has no point of access. `first_url` is that point of access, and `forwarded` the request as
//! it goes on. A `Url` is a text that is one.
//!
//! ```text
//! let route = route_of(tree, b"CAdmin", &addr); // Route::Forward(number)
//! let request = forwarded(alloc, home, b"CAdmin", &request)?;
//! ```
#![tactic(auto)]

mod forwarding;
mod laws;
mod routing;
mod url;

pub use forwarding::forwarded;
pub use laws::the_full_form_tells_the_cse;
pub use routing::{Route, route_of};
pub use std::alloc::AllocError as OutOfMemory;
pub use subscription_match::first_url;
pub use url::Url;
