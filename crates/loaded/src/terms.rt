// Terms read back from the tables, each by the names of its fields.

use rules::Subject;

// A signature: the message and the private key that signed.
#[derive(Clone, Copy)]
pub struct Signature {
    pub message: usize,
    pub key: usize,
}

// A credential: its first term, its number and its public key.
#[derive(Clone, Copy)]
pub struct Credential {
    pub content: usize,
    pub number: usize,
    pub key: usize,
}

// An IDevID request: its Subject, its certificate and its public key.
#[derive(Clone, Copy)]
pub struct IdevidRequest {
    pub subject: Subject,
    pub certificate: usize,
    pub key: usize,
}

// An LDevID request: its message and its certificate.
#[derive(Clone, Copy)]
pub struct LdevidRequest {
    pub message: usize,
    pub certificate: usize,
}

// A certificate: the key that it certifies, its Subject and its signer's private key.
#[derive(Clone, Copy)]
pub struct Certificate {
    pub key: usize,
    pub subject: Subject,
    pub signer: usize,
}

// A pair: its two terms.
#[derive(Clone, Copy)]
pub struct Pair {
    pub left: usize,
    pub right: usize,
}

// A quote body: its register, the value and the number.
#[derive(Clone, Copy)]
pub struct Quote {
    pub register: usize,
    pub value: usize,
    pub number: usize,
}
