// The scan of a file: the records before the commands, then the commands.
#![tactic(auto)]

ghost use Rattle.std.specs.Prelude.{◌≡◌, cond, List, ℕ, ◌<◌, eqb, length, get_or, IfOk, IfErr};
ghost use Rattle.rules.specs.Codes.{number_of, number_in};
ghost use Rattle.rules.specs.Record.{section_of};
ghost use Rattle.rules.specs.Load.{term_at, load, refused};
ghost use Rattle.state.specs.View.{view};
ghost use Rattle.tables.specs.Columns.{tables_in};
ghost use Rattle.learning.specs.There.{term_there};
ghost use Rattle.index.specs.Indexed.{Indexed};
ghost use Rattle.reader.specs.Place.{next_place};
ghost use Rattle.lookup.specs.Commands.{commands_from};
ghost use Rattle.scan.specs.Describes.{counted, EnterReady, last_fault, columns_after, signers_after, Stands, Begins, ScanReady, ScanResult};

use checks::Declared;
use rules::{Refusal, Refused};
use tables::Tables;

// The section and the counts so far; the section is the rules' number.
#[derive(Clone, Copy, Default)]
pub struct Tally {
    pub section: u8,
    pub parties: usize,
    pub terms: usize,
    pub commands: usize,
}

impl Tally {
    // The counts with one record more of a section.
    #[tactic(auto, unfolding(crate::specs::Describes::counted))]
    fn count(&mut self, section: u8)
        requires { (self.old.parties < 65536) × (self.old.terms < 65536) × (self.old.commands < 65536) }
        ensures { self.new ≡ counted section self.old }
    {
        self.section = section;
        match section {
            1 => self.parties += 1,
            2 => self.terms += 1,
            3 => {}
            _ => self.commands += 1,
        }
    }
}

// What the scan of a file found: the place of the first command's record, or the file's end; and the counts.
#[derive(Clone, Copy)]
pub struct Scanned {
    pub first: usize,
    pub tally: Tally,
}

// 9 to 12 at a record whose fields are right; where none applies the record is noted.
fn enter(
    file: &[u8],
    state: &mut [u8],
    links: &mut [u16; index::LINKS],
    tables: &mut Tables,
    body: &[u8],
    kind: u8,
    section: u8,
    at: usize,
    n: Tally,
) -> Result<(), Refusal>
    requires { (section ≡ section_of kind) × EnterReady file.now state.old body.now kind at n × Indexed file.now (view state.old).place links.old tables.old n.terms × (kind ≡ get_or file.now at 0) × (term_there file.now at ≡ term_at kind body.now) }
    ensures refusal { number_in result ≡ last_fault file.now (view state.old) (tables_in tables.old).signer n kind body.now }
    ensures left { view state.new ≡ cond (eqb (number_in result) 0) (columns_after file.now (view state.old) n kind body.now at) (view state.old) }
    ensures keys { (tables_in tables.new).signer ≡ cond (eqb (number_in result) 0) (signers_after (tables_in tables.old).signer kind body.now) (tables_in tables.old).signer }
    ensures indexed { number_in result ≡ 0 → Indexed file.now (view state.new).place links.new tables.new (counted section n).terms }
{
    match section {
        2 => index::enter_term(file, state, links, tables, body, kind, at, n.terms),
        3 => setup::enter_setup(file, state, tables, body, kind, n.parties, n.terms),
        _ => Ok(()),
    }
}

// The records before the commands: the first of 3 to 12 that applies to one of them ends the scan of the file.
fn scan_records(file: &[u8], state: &mut [u8], tables: &mut Tables) -> Result<Scanned, Refused>
    requires { ScanReady file.now state.old tables.old }
    ensures refused { IfErr result (λ x. load file.now ≡ refused (number_of x.refusal) x.place) }
    ensures stands { IfOk result (λ x. Begins file.now state.new tables.new x.tally x.first) }
    ensures first { IfOk result (λ x. x.first ≡ commands_from (length file.now) file.now 0) }
{
    let mut links = [0u16; index::LINKS];
    let mut n = Tally::default();
    let mut at = 0;
    'records: loop {
        if file.len() <= at {
            break 'records Ok(Scanned {
                first: at,
                tally: n,
            });
        }
        let kind = file[at];
        let section = records::section_of(kind);
        if section == 4 {
            break 'records Ok(Scanned {
                first: at,
                tally: n,
            });
        }
        let place = at as u32;
        let end = reader::next_place(file, at);
        let declared = Declared {
            tables,
            parties: n.parties,
            terms: n.terms,
        };
        if let Err(refusal) = declared.check_head(section, end, file.len(), n.section) {
            break 'records Err(Refused { refusal, place });
        }
        let body = &file[at + 1..end];
        if !declared.seen_right(kind, body) && !declared.is_setup_right(kind, body) {
            let mut offset = 0;
            for field in records::fields_of(kind) {
                if let Err(refusal) = declared.check_field(*field, body, offset) {
                    break 'records Err(Refused { refusal, place });
                }
                offset += records::width(*field);
            }
        }
        if let Err(refusal) = enter(file, state, &mut links, tables, body, kind, section, at, n) {
            break 'records Err(Refused { refusal, place });
        }
        n.count(section);
        at = end;
    }
}

// The commands, after what was scanned before: the first of 3 to 8 that applies to one of them ends the scan. One whose
// fields are seen to be right at once is passed.
fn scan_commands(file: &[u8], tables: &Tables, before: Scanned) -> Result<Tally, Refused>
    requires { (state : List ℕ) × Begins file.now state tables.now before.tally before.first }
    ensures refused { IfErr result (λ x. load file.now ≡ refused (number_of x.refusal) x.place) }
    ensures passed { IfOk result (λ n. (state links : List ℕ) → Stands file.now state links tables.now before.tally before.first → Stands file.now state links tables.now n (length file.now)) }
{
    let declared = Declared {
        tables,
        parties: before.tally.parties,
        terms: before.tally.terms,
    };
    let mut n = before.tally;
    let mut at = before.first;
    'commands: loop {
        if file.len() <= at {
            break 'commands Ok(n);
        }
        let end = reader::next_place(file, at);
        if !declared.is_plain(file, at, end) {
            let place = at as u32;
            let kind = file[at];
            let own = records::section_of(kind);
            if let Err(refusal) = declared.check_head(own, end, file.len(), n.section) {
                break 'commands Err(Refused { refusal, place });
            }
            let body = &file[at + 1..end];
            let mut offset = 0;
            for operand in records::fields_of(kind) {
                if let Err(refusal) = declared.check_field(*operand, body, offset) {
                    break 'commands Err(Refused { refusal, place });
                }
                offset += records::width(*operand);
            }
        }
        n.count(4);
        at = end;
    }
}

// The scan of the file: the records before the commands, then the commands; it ends at the first refusal.
pub fn scan(file: &[u8], state: &mut [u8], tables: &mut Tables) -> Result<Scanned, Refused>
    requires { ScanReady file.now state.old tables.old }
    ensures result { ScanResult file.now state.new (tables_in tables.new).signer result }
    ensures first { IfOk result (λ x. x.first ≡ commands_from (length file.now) file.now 0) }
    ensures indexed { IfOk result (λ x. (links : List ℕ) × Indexed file.now (view state.new).place links tables.new x.tally.terms) }
{
    let before = scan_records(file, state, tables)?;
    let tally = scan_commands(file, tables, before)?;
    Ok(Scanned {
        first: before.first,
        tally,
    })
}
