// A loaded file: what commands read of its parties, where they stand, and of its terms, by the tables.
#![tactic(auto)]

pub mod as_noted;
pub mod file;
pub mod terms;

pub use as_noted::{certificate_noted, idevid_request_noted};
pub use file::{Loaded, role_stands};
pub use terms::{Certificate, Credential, IdevidRequest, LdevidRequest, Pair, Quote, Signature};
