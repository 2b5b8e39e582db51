//! A law of conversations. The function does nothing: its contract is the law.

ghost use Rattle.gopher_serve.specs.Served.{ClientsReceivePrefixes};

use crate::answer::Answers;
use std::io::{Read, Write};

/// Whatever calls of `advance`, `converse` and `put_back` a new conversation went through, what it
/// wrote is a prefix of a reply that its answers gave, meanwhile, to the first line of the bytes
/// that it read (RFC 1436, section 2); before the end of that line it wrote nothing.
pub fn clients_receive_prefixes<'a, A: Answers<'a>, R: Read, W: Write>()
    ensures { ClientsReceivePrefixes A.gives A.leads_to R.remaining W.contents }
{}
