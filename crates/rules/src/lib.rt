// The values that the rules and the code both speak of (document 01, "Terms", "Run and Path").
#![tactic(auto)]

ghost use Rattle.std.specs.Prelude.{◌≡◌, true, false, cond, OnOk, IfErr};
ghost use Rattle.rules.specs.Codes.{number_of, number_in, role_number, kind_number};
ghost use Rattle.rules.specs.Term.{kind_of};
ghost use Rattle.rules.specs.Families.{family_of};
ghost use Rattle.rules.specs.Attributes.{has, iak_attributes, ek_attributes, devid_attributes, desk_key_attributes};

// The numbers of document 01.
pub const FILE_LIMIT: usize = 32768;

pub const PARTY_LIMIT: usize = 8;

pub const TERM_LIMIT: usize = 1024;

pub const ROW_WIDTH: usize = 8;

pub const STATE_BYTES: usize = TERM_LIMIT * ROW_WIDTH;

pub const COMMAND_LIMIT: usize = 8192;

pub const DEPTH_LIMIT: u16 = 8;

pub const PATH_PLACES: usize = 9;

// Registers of a device's TPM, bytes of a party's registers, and of those of all parties.
pub const REGISTER_COUNT: usize = 24;

pub const REGISTER_WIDTH: usize = 2 * REGISTER_COUNT;

pub const REGISTER_BYTES: usize = PARTY_LIMIT * REGISTER_WIDTH;

// The last kind of the last section, and the kinds from 00 to it.
pub const LAST_KIND: usize = 0x45;

pub const KIND_COUNT: usize = LAST_KIND + 1;

// The pairs of a 43, the bytes of one, and the number in both fields of an empty one.
pub const PAIR_COUNT: usize = 4;

pub const PAIR_WIDTH: usize = 4;

pub const EMPTY_FIELD: u16 = 0xFFFF;

// The marks of a used number, and of an open and a closed credential: bytes of the lent state.
pub const NUMBER_USED: u8 = 1;

pub const CREDENTIAL_OPEN: u8 = 2;

pub const CREDENTIAL_CLOSED: u8 = 3;

// Roles of parties.
#[derive(Clone, Copy, PartialEq, Eq)]
pub enum Role {
    Device,
    TpmMaker,
    OemDesk,
    OwnerDesk,
}

pub const ROLE_COUNT: usize = 4;

impl Role {
    // The byte of a party's record.
    pub fn number(self) -> u8
        ensures { result ≡ role_number self }
    {
        self as u8
    }
}

// Why a file, a record, a command or a question is refused, each with its number.
#[derive(Clone, Copy, PartialEq, Eq)]
pub enum Refusal {
    BufferShort = 1,
    FileLong = 2,
    KindUnknown = 3,
    CutShort = 4,
    SectionOrder = 5,
    TooMany = 6,
    FieldRange = 7,
    TermKind = 8,
    TermAlike = 9,
    NotTaught = 10,
    NotHeldAlone = 11,
    NotASigner = 12,
    RoleForbids = 13,
    InputUnknown = 14,
    HalfNotHeld = 15,
    AttributesForbid = 16,
    NoTicket = 17,
    CheckFalse = 18,
    RequestForm = 19,
    NoProof = 20,
    CertificateSigner = 21,
    KeyAttributes = 23,
    NumberTaken = 24,
    CredentialNotOpen = 25,
    PartyReturning = 26,
    NotCalledFor = 27,
    IssuedAlready = 28,
    TooDeep = 29,
    NotInLedger = 30,
    SubjectOfAnotherEk = 31,
    PairsEmptyOrAlike = 32,
    RegisterShowsOther = 33,
    NoBoards = 39,
}

impl Refusal {
    pub fn number(self) -> u8
        ensures { result ≡ number_of self }
    {
        self as u8
    }
}

// A test that a command has to pass.
pub fn ensure(passes: bool, refusal: Refusal) -> Result<(), Refusal>
    ensures outcome { number_in result ≡ cond passes 0 (number_of refusal) }
    ensures passed { OnOk result (passes ≡ true) }
    ensures failed { IfErr result (λ r. (passes ≡ false) × (r ≡ refusal)) }
{
    if passes { Ok(()) } else { Err(refusal) }
}

// The outcome byte of a command: 0 where it was accepted.
pub fn outcome_byte(decided: Result<(), Refusal>) -> u8
    ensures { result ≡ number_in decided }
{
    match decided {
        Ok(()) => 0,
        Err(refusal) => refusal.number(),
    }
}

// A refusal and its place in the file.
#[derive(Clone, Copy, PartialEq, Eq)]
pub struct Refused {
    pub refusal: Refusal,
    pub place: u32,
}

// What a key may do: a sum of the four constants.
#[derive(Clone, Copy, PartialEq, Eq)]
pub struct Attributes {
    pub bits: u8,
}

impl Attributes {
    pub const RESTRICTED: u8 = 1;

    pub const SIGN: u8 = 2;

    pub const DECRYPT: u8 = 4;

    pub const FIXED_TPM: u8 = 8;

    pub const LIMIT: usize = 16;

    // The attributes of an attestation key (IAK or LAK).
    pub fn iak() -> Attributes
        ensures { result ≡ iak_attributes }
    {
        Attributes {
            bits: Attributes::RESTRICTED + Attributes::SIGN + Attributes::FIXED_TPM,
        }
    }

    // The attributes of an endorsement key.
    pub fn ek() -> Attributes
        ensures { result ≡ ek_attributes }
    {
        Attributes {
            bits: Attributes::RESTRICTED + Attributes::DECRYPT + Attributes::FIXED_TPM,
        }
    }

    // The attributes of a general-purpose key (IDevID or LDevID).
    pub fn devid() -> Attributes
        ensures { result ≡ devid_attributes }
    {
        Attributes {
            bits: Attributes::SIGN + Attributes::FIXED_TPM,
        }
    }

    // The attributes of the signing key of a desk or a TPM maker.
    pub fn desk_key() -> Attributes
        ensures { result ≡ desk_key_attributes }
    {
        Attributes {
            bits: Attributes::SIGN + Attributes::FIXED_TPM,
        }
    }
}

// Who may have signed a certificate: a TPM maker, an OEM desk, an owner desk.
#[derive(Clone, Copy)]
pub struct Signers {
    pub maker: bool,
    pub oem: bool,
    pub owner: bool,
}

// A family of certificates that desks issue: the attributes of its keys, the role of the desk that signs it, the
// attributes of its parent's key, and who may have signed the parent.
#[derive(Clone, Copy)]
pub struct Family {
    pub key: Attributes,
    pub desk: Role,
    pub parent: Attributes,
    pub signers: Signers,
}

// A family whose parents certify attestation keys and are signed by OEM desks, or by owner desks too.
fn below_attestation_key(key: Attributes, desk: Role, owner: bool) -> Family
    ensures { result ≡ record { key = key; desk = desk; parent = iak_attributes; signers = record { maker = false; oem = true; owner = owner } } }
{
    Family {
        key,
        desk,
        parent: Attributes::iak(),
        signers: Signers {
            maker: false,
            oem: true,
            owner,
        },
    }
}

// The family of 40, 41 or 42.
pub fn family_of(kind: u8) -> Family
    ensures { result ≡ family_of kind }
{
    match kind {
        0x41 => below_attestation_key(Attributes::devid(), Role::OemDesk, false),
        0x42 => below_attestation_key(Attributes::devid(), Role::OwnerDesk, true),
        _ => below_attestation_key(Attributes::iak(), Role::OwnerDesk, true),
    }
}

#[derive(Clone, Copy, PartialEq, Eq)]
pub enum Subject {
    Tpm(u16),
    Device(u16),
}

#[derive(Clone, Copy)]
pub enum Term {
    PublicKey(u16, Attributes),
    PrivateKey(u16, Attributes),
    Hash(u16),
    Signature(u16, u16),
    Attest(u16),
    Credential(u16, u16, u16),
    Number(u16),
    IdevidRequest(Subject, u16, u16),
    LdevidRequest(u16, u16),
    Certificate(u16, Subject, u16),
    Pair(u16, u16),
    Register(u8),
    Quote(u8, u16, u16),
}

// The kinds of terms, each with the byte of its record.
#[derive(Clone, Copy, PartialEq, Eq)]
pub enum TermKind {
    PublicKey = 0x10,
    PrivateKey = 0x11,
    Hash = 0x12,
    Signature = 0x13,
    Attest = 0x14,
    Credential = 0x15,
    Number = 0x16,
    IdevidRequest = 0x17,
    LdevidRequest = 0x18,
    Certificate = 0x19,
    Pair = 0x1A,
    Register = 0x1B,
    Quote = 0x1C,
}

impl TermKind {
    pub fn number(self) -> u8
        ensures { result ≡ kind_number self }
    {
        self as u8
    }
}

impl Term {
    #[tactic(auto, unfolding(crate::specs::Term::kind_of))]
    pub fn kind(self) -> TermKind
        ensures { kind_number result ≡ kind_of self }
    {
        match self {
            Term::PublicKey(_, _) => TermKind::PublicKey,
            Term::PrivateKey(_, _) => TermKind::PrivateKey,
            Term::Hash(_) => TermKind::Hash,
            Term::Signature(_, _) => TermKind::Signature,
            Term::Attest(_) => TermKind::Attest,
            Term::Credential(_, _, _) => TermKind::Credential,
            Term::Number(_) => TermKind::Number,
            Term::IdevidRequest(_, _, _) => TermKind::IdevidRequest,
            Term::LdevidRequest(_, _) => TermKind::LdevidRequest,
            Term::Certificate(_, _, _) => TermKind::Certificate,
            Term::Pair(_, _) => TermKind::Pair,
            Term::Register(_) => TermKind::Register,
            Term::Quote(_, _, _) => TermKind::Quote,
        }
    }
}

// What a field of a body may be: a field given a kind takes that kind alone, a bare term any.
#[derive(Clone, Copy)]
pub enum Field {
    RoleField,
    IdentifierField,
    AttributesField,
    SubjectField,
    PartyField,
    AnyTerm,
    TermOf(u8),
    // A signature over an attest.
    SignedAttest,
    // A credential and a certificate, or an empty pair.
    IakPairField,
    RegisterField,
    // A hash of a pair; a signature over a quote body.
    HashedPair,
    SignedQuote,
}

// A line of the ledger: an issued certificate, its parent and how many steps lead to an endorsement certificate.
#[repr(C)]
#[derive(Clone, Copy, Default, PartialEq, Eq, Drop)]
pub struct Entry {
    pub certificate: u16,
    pub parent: u16,
    pub depth: u16,
}

// What Run answers: the commands accepted and refused and the certificates issued.
#[derive(Clone, Copy, PartialEq, Eq)]
pub struct Totals {
    pub accepted: u32,
    pub refused: u32,
    pub issued: u32,
}

// What loading answers: the parties, terms and commands of the file.
#[derive(Clone, Copy, PartialEq, Eq)]
pub struct Counts {
    pub parties: u32,
    pub terms: u32,
    pub commands: u32,
}

// What the stock of numbers answers: whole boards, and the numbers left over.
#[derive(Clone, Copy, PartialEq, Eq)]
pub struct Boards {
    pub boards: u32,
    pub rest: u32,
}

// What is asked of a file and lent buffers: the totals of its first n commands (Run); the boards left in a party's
// stock of numbers, by the IAKs per board.
#[derive(Clone, Copy)]
pub enum Question {
    Totals(usize),
    Stock(u8, u32),
}

// What is told where there was a run.
#[derive(Clone, Copy, PartialEq, Eq)]
pub enum Told {
    Totals(Totals),
    Boards(Boards),
}
