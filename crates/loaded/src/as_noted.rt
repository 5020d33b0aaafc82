// Terms as the tables have them, each by the fields noted of it alone.

ghost use Rattle.std.specs.Prelude.{◌≡◌, ◌<◌};
ghost use Rattle.rules.specs.declared.Term.TheVariants.{IdevidRequest, Certificate};
ghost use Rattle.rules.specs.Limits.{term_limit};
ghost use Rattle.tables.specs.Columns.{tables_in, field_of};
ghost use Rattle.loaded.specs.Loaded.{subject_by};

use rules::{Subject, Term};
use tables::Tables;

// A Subject by its two fields.
#[tactic(auto, unfolding(crate::specs::Loaded::subject_by))]
fn subject_of(tag: u16, number: u16) -> Subject
    ensures { result ≡ subject_by tag number }
{
    if tag == 0 {
        Subject::Tpm(number)
    } else {
        Subject::Device(number)
    }
}

// An IDevID request as a term, by the fields noted.
pub fn idevid_request_noted(tables: &Tables, t: usize) -> Term
    requires { t < term_limit }
    ensures { result ≡ IdevidRequest (subject_by (field_of (tables_in tables.now).terms t 0) (field_of (tables_in tables.now).terms t 1)) (field_of (tables_in tables.now).terms t 2) (field_of (tables_in tables.now).terms t 3) }
{
    Term::IdevidRequest(
        subject_of(tables.field_of(t, 0), tables.field_of(t, 1)),
        tables.field_of(t, 2),
        tables.field_of(t, 3),
    )
}

// A certificate as a term, by the fields noted.
pub fn certificate_noted(tables: &Tables, t: usize) -> Term
    requires { t < term_limit }
    ensures { result ≡ Certificate (field_of (tables_in tables.now).terms t 0) (subject_by (field_of (tables_in tables.now).terms t 1) (field_of (tables_in tables.now).terms t 2)) (field_of (tables_in tables.now).terms t 3) }
{
    Term::Certificate(
        tables.field_of(t, 0),
        subject_of(tables.field_of(t, 1), tables.field_of(t, 2)),
        tables.field_of(t, 3),
    )
}
