// What set-up records 20 to 22 are allowed by: the parties and the terms, the signing keys and the TPM tables so far.

ghost use Rattle.std.specs.Prelude.{◌≡◌, ◌*◌, ◌<◌, ◌≤◌, length};
ghost use Rattle.rules.specs.Limits.{party_limit};
ghost use Rattle.rules.specs.Attributes.{has as has_flag};
ghost use Rattle.rules.specs.Term.{attributes_of};
ghost use Rattle.state.specs.View.{view};
ghost use Rattle.tables.specs.Columns.{tables_in};
ghost use Rattle.learning.specs.There.{term_there};
ghost use Rattle.checks.specs.There.{TermsThere};
ghost use Rattle.setup.specs.Allowed.{signs_there, may_learn_there, may_hold_there, may_sign_there};

use rules::{Attributes, Role};
use tables::Tables;

// The file, the state and the tables before a set-up record, and how many parties and terms are declared.
#[derive(Clone, Copy)]
pub struct Before<'a> {
    pub file: &'a [u8],
    pub state: &'a [u8],
    pub tables: &'a Tables,
    pub parties: usize,
    pub terms: usize,
    pub ghost there: { TermsThere file.now state.now terms },
    pub ghost few_parties: { parties ≤ party_limit },
    pub ghost parties_whole: { 2 * parties ≤ length file.now },
}

impl<'a> Before<'a> {
    // Whether a key is the signing key of one of the parties of a role.
    #[tactic(auto, using(crate::proofs::Signing::signs_found))]
    pub fn signs_for_role(&self, role: u8, key: usize) -> bool
        ensures { result ≡ signs_there self.now.file.now (tables_in self.now.tables.now).signer role key self.now.parties }
    {
        for p in 0..self.parties {
            if self.tables.signer_of(p) == Some(key) && checks::role_of(self.file, p) == role {
                return true;
            }
        }
        false
    }

    // The attributes of a key.
    fn attributes_of(&self, t: usize) -> Attributes
        requires { t < self.now.terms }
        ensures { result ≡ attributes_of (term_there self.now.file.now ((view self.now.state.now).place t)) }
    {
        learning::attributes_at(self.file, state::place_of(self.state, t))
    }

    // Whether a 20 may teach a term: a public key, a number, or a certificate of a TPM that a TPM maker signed.
    #[tactic(auto, using(crate::proofs::Terms::certificate_ends, learning::proofs::Words::certificate_tpm, learning::proofs::Words::signer_there), unfolding(crate::specs::Allowed::may_learn_there))]
    pub fn may_learn(&self, t: usize) -> bool
        requires { t < self.now.terms }
        ensures { result ≡ may_learn_there self.now.file.now (view self.now.state.now).place (tables_in self.now.tables.now).signer self.now.parties t }
    {
        let at = state::place_of(self.state, t);
        match self.file[at] {
            0x10 | 0x16 => true,
            0x19 => {
                self.file[at + 3] == 0
                    && self.signs_for_role(
                        Role::TpmMaker.number(),
                        records::word_at(self.file, at + 6) as usize,
                    )
            }
            _ => false,
        }
    }

    // Whether a 21 may give a private key to a party's TPM: a FixedTPM key is held by one TPM only.
    #[tactic(auto, unfolding(crate::specs::Allowed::may_hold_there))]
    pub fn may_hold(&self, party: usize, key: usize) -> bool
        requires { (key < self.now.terms) × (party < party_limit) }
        ensures { result ≡ may_hold_there self.now.file.now (view self.now.state.now) party key }
    {
        !records::has(self.attributes_of(key), Attributes::FIXED_TPM)
            || !state::in_other_table(self.state, party, key)
    }

    // Whether a 22 may make a private key a party's signing key: no device's, one each, of a desk key's attributes,
    // held.
    #[tactic(auto, unfolding(crate::specs::Allowed::may_sign_there, rules::specs::Attributes::same_attributes))]
    pub fn may_sign(&self, party: usize, key: usize) -> bool
        requires { (key < self.now.terms) × (party < self.now.parties) }
        ensures { result ≡ may_sign_there self.now.file.now (view self.now.state.now) (tables_in self.now.tables.now).signer party key }
    {
        checks::role_of(self.file, party) != Role::Device.number()
            && self.tables.signer_of(party).is_none()
            && self.attributes_of(key) == Attributes::desk_key()
            && state::in_table(self.state, party, key)
    }
}
