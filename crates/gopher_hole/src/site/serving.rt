//! One whole conversation of a tree, over streams that block (`serve_one`).

ghost use Rattle.std.specs.Prelude.{◌≡◌, IfErr, OnErr};
ghost use Rattle.gopher_text.specs.Line.{IsNextLine};
ghost use Rattle.gopher_serve.specs.Serve.{IsUnheard, HearsRequest, SendsReply};
ghost use Rattle.gopher_crew.specs.Pass.{SeesOn};
ghost use Rattle.gopher_hole.specs.Answer.{AnswersLine};

use crate::site::answering::answer;
use gopher_crew::{Crew, Pass};
use gopher_item::Home;
use gopher_serve::ServeFault;
use gopher_text::{Watched, read_line_from, send};
use gopher_tree::Tree;
use std::alloc::Global;
use std::io::{Read, Write};

/// Reads a request line from `reader`, not a byte after its end, and sends the reply of `answer` to
/// `writer`.
///
/// # Errors
///
/// - `LineTooLong` (7), `ReadFailed` (10), `TooManyTurns` (11): those of
///   `gopher_text::read_line_from`. Nothing was asked, and nothing written.
/// - `WriteFailed` (13): that of `gopher_text::send`. A prefix of the reply was written.
/// - `NoMemory` (90): out of memory. Nothing was written.
///
/// After any of them, the pass has seen at least what it had seen.
#[tactic(auto, using(crate::proofs::SiteLeads::answered_sees_on, crate::proofs::SiteLeads::sees_itself))]
pub fn serve_one<C: Crew, R: Read, W: Write>(
    alloc: Global,
    tree: &Tree,
    home: &Home,
    pass: &mut Pass<C>,
    reader: &mut Watched<R>,
    writer: &mut Watched<W>,
) -> Result<(), ServeFault>
    ensures read { HearsRequest R.remaining reader.old reader.new result }
    ensures sent { SendsReply (IsNextLine R.remaining reader.old)
        (AnswersLine tree.now home.now pass.old pass.new) W.contents writer.old writer.new result }
    ensures unheard { IfErr result (λ fault. IsUnheard fault → pass.new ≡ pass.old) }
    ensures refused { OnErr result (SeesOn pass.old pass.new) }
{
    let line = read_line_from(alloc, reader)?;
    let reply = answer(alloc, tree, home, pass, &line)?;
    send(writer, &reply)?;
    Ok(())
}
