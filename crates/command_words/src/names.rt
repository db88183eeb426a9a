//! The words that have a meaning of their own: the names of commands, and those of options.

// ---- the commands

pub(crate) const HTTP: &str = "http";

pub(crate) const REPLAY: &str = "replay";

pub(crate) const TWIN: &str = "twin";

pub(crate) const SERVE: &str = "serve";

pub(crate) const GEN: &str = "gen";

pub(crate) const SNAPSHOT: &str = "snapshot";

// ---- what the program is asked of itself

pub(crate) const HELP: &str = "help";

pub(crate) const HELP_OPTION: &str = "--help";

pub(crate) const VERSION_OPTION: &str = "--version";

// ---- the options that say a home

/// The CSE-ID without its slash.
pub(crate) const ID: &str = "--id";
/// The name of the CSEBase.
pub(crate) const BASE: &str = "--base";
/// The service provider.
pub(crate) const SP: &str = "--sp";
/// The administrator.
pub(crate) const ADMIN: &str = "--admin";
/// The CSE type.
pub(crate) const TYPE: &str = "--type";

// ---- those of a server

/// Where a server listens.
pub(crate) const LISTEN: &str = "--listen";
/// How many connections a server accepts.
pub(crate) const ACCEPT: &str = "--accept";
/// How many connections a server serves at a time.
pub(crate) const WORKERS: &str = "--workers";
/// What a server writes into its log.
pub(crate) const LOG: &str = "--log";

pub(crate) const REQUESTS: &str = "requests";

pub(crate) const FIGURES: &str = "figures";

pub(crate) const FAULTS: &str = "faults";

pub(crate) const NOTHING: &str = "nothing";

/// Which protocol a server speaks on its connections. `http` names one of them too.
pub(crate) const BIND: &str = "--bind";

pub(crate) const WS: &str = "ws";

// ---- those of a CSE that serves requests

/// Whether requests that ask for it are answered later.
pub(crate) const LATER: &str = "--later";

pub(crate) const YES: &str = "yes";

pub(crate) const NO: &str = "no";

/// The file of the journal.
pub(crate) const JOURNAL: &str = "--journal";
