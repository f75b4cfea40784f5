//! Memory for replies, and what the system answered.

ghost use Rattle.std.specs.Prelude.{◌≡◌, ◌≢◌, ◌++◌, All, IfSome, List, OnOk, ℕ, true};
ghost use Rattle.lsm_script.specs.declared.reply.Reply.TheVariants.{Refused};
ghost use Rattle.lsm_cmd_shell.specs.Reasoned.{IsOfSystem, IsTextOf, cause_of, cause_of_merge};
ghost use Rattle.lsm_cmd_shell.specs.Reasoned.{reasoned_text};

use lsm_folder::Reasons;
use lsm_merge::MergeFault;
use lsm_script::{CommandFault, Reply, push_reply};
use lsm_text::{Form, parts};
use std::alloc::{AllocError, Global};

/// The number of what made a merge fail.
fn cause_of_merge(fault: MergeFault) -> u8
    ensures { result ≡ cause_of_merge fault }
{
    match fault {
        MergeFault::ReadFailed(_, cause) => cause.number(),
        MergeFault::PutFailed(_, cause) => cause.number(),
        MergeFault::OutOfMemory => 1,
        MergeFault::UnknownTicket(_) => 45,
        MergeFault::NumbersSpent => 46,
    }
}

/// The number of a refusal; of a merge that of what made it fail.
fn cause_of(fault: CommandFault) -> u8
    ensures { result ≡ cause_of fault }
{
    match fault {
        CommandFault::State(fault) => fault.number(),
        CommandFault::Merge(fault) => cause_of_merge(fault),
    }
}

/// Whether a refusal may come from what the system answered.
fn is_of_system(fault: CommandFault) -> bool
    ensures { result ≡ true → IsOfSystem fault }
{
    match cause_of(fault) {
        9 | 10 => true,
        _ => false,
    }
}

/// What stands before the first newline, if there is one.
fn one_line(text: &[u8]) -> Option<&[u8]>
    ensures { IfSome result (λ line. All (λ c. c ≢ 10) line.now) }
{
    match parts(b'\n', text) {
        Some((line, _)) => Some(line),
        None => None,
    }
}

/// Appends a refusal, with this reason behind it in its line.
fn push_reasoned(
    text: &mut Vec<u8>,
    form: Form,
    fault: CommandFault,
    reason: &[u8],
) -> Result<(), AllocError>
    ensures { OnOk result (text.new.items ≡ text.old.items ++ reasoned_text fault reason.now) }
{
    push_reply(text, form, &Reply::Refused(fault))?;
    text.pop();
    text.extend_from_slice(b": ")?;
    text.extend_from_slice(reason)?;
    text.push(b'\n')?;
    Ok(())
}

/// Memory for replies, and for what the system answered, if that is noted.
#[derive(Drop)]
pub(crate) struct Speech<'a> {
    pub(crate) text: Vec<u8>,
    reason: Vec<u8>,
    reasons: Option<&'a Reasons>,
}

impl<'a> Speech<'a> {
    pub(crate) fn new(alloc: Global, reasons: Option<&'a Reasons>) -> Speech<'a> {
        Speech {
            text: Vec::new(alloc),
            reason: Vec::new(alloc),
            reasons,
        }
    }

    /// Forgets what the system answered before this line.
    pub(crate) fn forget(&self) {
        if let Some(reasons) = self.reasons {
            reasons.forget();
        }
    }

    /// Reads what the system answered.
    fn read_reason(&mut self)
        ensures { self.new.text ≡ self.old.text }
    {
        self.reason.clear();
        if let Some(reasons) = self.reasons {
            let _ = reasons.write_last(&mut self.reason);
        }
    }

    /// Appends a refusal that comes from what the system answered, with that behind it if it is
    /// known.
    fn push_refused(&mut self, form: Form, fault: CommandFault) -> Result<(), AllocError>
        requires { IsOfSystem fault }
        ensures { OnOk result ((text : List ℕ) × IsTextOf form (Refused fault) text
            × (self.new.text.items ≡ self.old.text.items ++ text)) }
    {
        self.read_reason();
        match one_line(self.reason.as_slice()) {
            Some(reason) => push_reasoned(&mut self.text, form, fault, reason),
            None => push_reply(&mut self.text, form, &Reply::Refused(fault)),
        }
    }

    /// Appends a reply. A refusal that comes from what the system answered tells that, if it is
    /// known.
    pub(crate) fn push(&mut self, form: Form, reply: &Reply) -> Result<(), AllocError>
        ensures { OnOk result ((text : List ℕ) × IsTextOf form reply.now text
            × (self.new.text.items ≡ self.old.text.items ++ text)) }
    {
        match reply {
            Reply::Refused(fault) if is_of_system(*fault) => self.push_refused(form, *fault),
            reply => push_reply(&mut self.text, form, reply),
        }
    }
}
