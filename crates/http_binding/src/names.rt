//! The names of header fields, and what is written in every frame (TS-0009, 6.4; RFC 9110).

/// The minor version of HTTP that is written (RFC 9112, section 2.3).
pub const WRITTEN_MINOR: u8 = 1;

/// Who asks.
pub const ORIGIN_FIELD: &str = "X-M2M-Origin";

/// The identifier of the request.
pub const ID_FIELD: &str = "X-M2M-RI";

/// When the request expires.
pub const EXPIRY_FIELD: &str = "X-M2M-RET";

/// The status code.
pub const CODE_FIELD: &str = "X-M2M-RSC";

/// The type of the content.
pub const TYPE_FIELD: &str = "Content-Type";

/// How the content is coded.
pub const CODING_FIELD: &str = "Content-Encoding";

/// How long the body is.
pub const LENGTH_FIELD: &str = "Content-Length";

/// Whether the connection closes.
pub const CONNECTION_FIELD: &str = "Connection";

/// The type of the content that is written.
pub const JSON_TYPE: &str = "application/json";

/// The parameter of such a type that says which type is to be created.
pub const TYPE_PARAMETER: &str = "ty";
