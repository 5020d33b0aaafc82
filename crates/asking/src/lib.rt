// What is asked after a run: the calls that are lent Run's buffers alone, by what the run left.
#![tactic(auto)]

ghost use Rattle.std.specs.Prelude.{◌≡◌, IfOk};
ghost use Rattle.rules.specs.Questions.{count_of};
ghost use Rattle.asking.specs.Asks.{Askable, Answers};

use engine::Finished;
use rules::{Question, Refused, Told, Totals};

// How many commands are run before a question is asked.
#[tactic(auto, unfolding(rules::specs::Questions::count_of))]
pub fn count_of(question: Question) -> usize
    ensures { result ≡ count_of question }
{
    match question {
        Question::Totals(n) => n,
        Question::Stock(_, _) => rules::COMMAND_LIMIT,
    }
}

// What is told where there was a run, else the run's refusal.
#[tactic(auto, unfolding(rules::specs::Lent::in_numbers))]
pub fn answer(
    done: Result<Finished, Refused>,
    question: Question,
    file: &[u8],
    state: &[u8],
) -> Result<Told, Refused>
    requires { IfOk done (Askable file.now state.now) }
    ensures { Answers done question file.now state.now result }
{
    let Finished { begun, progress } = done?;
    match question {
        Question::Totals(_) => Ok(Told::Totals(Totals {
            accepted: progress.accepted as u32,
            refused: progress.refused as u32,
            issued: progress.issued as u32,
        })),
        Question::Stock(party, iaks) => {
            let boards = stock::boards_left(
                file,
                &state[..rules::STATE_BYTES],
                begun.parties,
                begun.terms,
                party as usize,
                iaks,
            )?;
            Ok(Told::Boards(boards))
        }
    }
}
