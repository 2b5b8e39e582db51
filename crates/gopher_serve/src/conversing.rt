//! The steps of a conversation while its streams are ready (`converse`).

ghost use Rattle.std.specs.Prelude.{◌≡◌, ◌<◌, length};
ghost use Rattle.gopher_serve.specs.Advance.{GivesOn, HearsOn, SaysOn, Stops};
ghost use Rattle.gopher_item.specs.Leads.{Leads};
ghost use Rattle.gopher_serve.specs.Talk.{IsAnswering, steps_of};
ghost use Rattle.gopher_serve.specs.declared.advancing.Progress.TheVariants.{Works};

use crate::advancing::{Progress, advance};
use crate::answer::Answers;
use crate::conversation::Conversation;
use crate::fault::ServeFault;
use gopher_text::Watched;
use std::alloc::Global;
use std::io::{Read, Write};

/// Advances a conversation until its progress isn't `Paused`. `buffer` isn't empty.
///
/// If it returns `Progress::Works` and the search had begun before, then fewer steps of the search
/// are left.
///
/// # Errors
///
/// Those of `advance`, and `TooManyTurns` (11): it still isn't done after 2^64 - 1 steps.
pub fn converse<'a, A: Answers<'a>, R: Read, W: Write>(
    alloc: Global,
    talk: &mut Conversation<'a>,
    answers: &mut A,
    reader: &mut Watched<R>,
    writer: &mut Watched<W>,
    buffer: &mut [u8],
) -> Progress
    requires { 0 < length buffer.old }
    ensures hears { HearsOn R.remaining talk.old talk.new reader.old reader.new }
    ensures gives { GivesOn A.gives A.leads_to talk.old talk.new answers.old answers.new }
    ensures says { SaysOn W.contents talk.old talk.new writer.old writer.new }
    ensures leads { Leads A.leads_to answers.old answers.new }
    ensures nears { result ≡ Works → IsAnswering talk.old → steps_of talk.new < steps_of talk.old }
    ensures stops { Stops talk.new reader.old reader.new writer.old writer.new result }
{
    for _step in 0..u64::MAX {
        let progress = advance(alloc, talk, answers, reader, writer, buffer);
        if progress != Progress::Paused {
            return progress;
        }
    }
    Progress::Failed(ServeFault::TooManyTurns)
}
