// Set-up records 20 to 22: refusals 10 to 12, and what an allowed record leaves.
#![tactic(auto)]

pub mod before;

ghost use Rattle.std.specs.Prelude.{◌≡◌, cond, eqb};
ghost use Rattle.rules.specs.Codes.{number_in};
ghost use Rattle.rules.specs.Load.{setup_at};
ghost use Rattle.state.specs.View.{view};
ghost use Rattle.tables.specs.Columns.{tables_in, with_signer};
ghost use Rattle.setup.specs.Allowed.{EntersSetup, allowed_there, setup_leaves, signers_leave};

use before::Before;
use learning::learn_term;
use rules::Refusal;
use tables::Tables;

// A set-up record whose fields are right: 10, 11 or 12 where it is not allowed; else what it says is noted.
#[tactic(auto, unfolding(crate::specs::Allowed::allowed_there, crate::specs::Allowed::setup_leaves, crate::specs::Allowed::signers_leave, rules::specs::Load::setup_at, rules::specs::Load::refuse_unless))]
pub fn enter_setup(
    file: &[u8],
    state: &mut [u8],
    tables: &mut Tables,
    body: &[u8],
    kind: u8,
    parties: usize,
    terms: usize,
) -> Result<(), Refusal>
    requires { EntersSetup file.now state.old tables.old body.now kind parties terms }
    ensures refusal { number_in result ≡ allowed_there file.now (view state.old) (tables_in tables.old).signer parties (setup_at kind body.now) }
    ensures left { view state.new ≡ cond (eqb (number_in result) 0) (setup_leaves file.now (view state.old) (setup_at kind body.now)) (view state.old) }
    ensures keys { tables_in tables.new ≡ with_signer (tables_in tables.old) (cond (eqb (number_in result) 0) (signers_leave (tables_in tables.old).signer (setup_at kind body.now)) (tables_in tables.old).signer) }
{
    let party = body[0] as usize;
    let t = records::word_at(body, 1) as usize;
    let before = Before {
        file,
        state,
        tables,
        parties,
        terms,
    };
    match kind {
        0x20 => {
            if !before.may_learn(t) {
                return Err(Refusal::NotTaught);
            }
            if !state::knows(state, party, t) {
                learn_term(tables, state, party, t);
            }
        }
        0x21 => {
            if !before.may_hold(party, t) {
                return Err(Refusal::NotHeldAlone);
            }
            state::note_table(state, party, t);
        }
        _ => {
            if !before.may_sign(party, t) {
                return Err(Refusal::NotASigner);
            }
            tables.note_signer(party, Some(t));
        }
    }
    Ok(())
}
