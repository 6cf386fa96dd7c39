//! `journals_from_json`.

ghost use Rattle.std.specs.Prelude.{◌≡◌, Some, None, Err, IfOk};
ghost use Rattle.serde_json.specs.Read.{read};
ghost use Rattle.tq_json_read.specs.Frame.{Answers, AreBothRead};
ghost use Rattle.tq_json_read.specs.Frame as spec;
ghost use Rattle.tq_json_read.specs.Slots as slots;

use crate::entry::{MAX_DEPTH, Plan};
use crate::fault::ReadFault;
use crate::file::{FileFields, journals_from};
use crate::glance::first_plan;
use crate::parts::{FromReader, Taken};
use std::alloc::Global;
use tq_json::{NotRead, Reader, Scratch, text_of_bytes};
use tq_tables::Journals;

/// What a file is, read by a plan.
#[derive(Drop)]
enum Reading {
    /// These journals.
    Journals(Journals),
    /// None that are of the form.
    NoJournals,
    /// The file gives this plan, which is another.
    OtherPlan(Plan),
}

/// The journals that a text is, in either format. It answers exactly the journals of the form where the text is of it;
/// `NotJson` exactly where `serde_json` reads no value of the text; and `NotJournals` exactly where it reads one that is not
/// of the form. No value is of both formats.
///
/// No value of the whole text is made: entries are read one at a time, and what no name of the form asks for is passed over.
#[tactic(auto, using(crate::proofs::Planned::both_read))]
pub fn journals_from_json(alloc: Global, text: &[u8]) -> Result<Journals, ReadFault>
    ensures answers { Answers result text.now spec.journals_of }
    ensures formats { AreBothRead }
{
    let Some(text) = text_of_bytes(text) else {
        return Err(ReadFault::NotJson);
    };
    journals_of_text(alloc, text)
}

fn journals_of_text(alloc: Global, text: &str) -> Result<Journals, ReadFault>
    ensures { slots.AnswersText result text.now }
{
    let mut scratch = Scratch::new(alloc);
    let plan = first_plan(alloc, text, &mut scratch);
    let first = match read_by(alloc, &plan, text, &mut scratch) {
        Ok(first) => first,
        Err(fault) => return Err(fault_of(fault)),
    };
    let Reading::OtherPlan(plan) = first else {
        return file_answer(first);
    };
    match read_by(alloc, &plan, text, &mut scratch) {
        Ok(second) => file_answer(second),
        Err(fault) => Err(fault_of(fault)),
    }
}

fn fault_of(fault: NotRead) -> ReadFault
    ensures { result ≡ slots.fault_of fault }
{
    match fault {
        NotRead::Memory => ReadFault::Memory,
        NotRead::NotJson => ReadFault::NotJson,
    }
}

/// What is answered of a file that was read by its own plan.
fn file_answer(reading: Reading) -> Result<Journals, ReadFault>
    ensures { result ≡ slots.file_answer reading }
{
    match reading {
        Reading::Journals(journals) => Ok(journals),
        Reading::NoJournals | Reading::OtherPlan(_) => Err(ReadFault::NotJournals),
    }
}

/// What the form makes of the value that a whole text is, by a plan: `None` where it is not of the form. White space may stand round it.
pub(crate) fn whole_text<'a, T: FromReader<'a>>(
    alloc: Global,
    plan: &Plan,
    text: &'a str,
    scratch: &'a mut Scratch,
) -> Taken<T>
    ensures ok { IfOk result
        (slots.IsOfText (λ d item. item ≡ T.at plan.now (Some d)) text.now) }
    ensures err { result ≡ Err NotRead.NotJson → read text.now ≡ None }
{
    let mut reader = Reader::new(text, scratch);
    let item = T::read(alloc, plan, &mut reader, MAX_DEPTH)?;
    if reader.next()?.is_some() {
        return Err(NotRead::NotJson);
    }
    Ok(item)
}

/// The journals of the file, where it gives this plan.
fn read_by(
    alloc: Global,
    plan: &Plan,
    text: &str,
    scratch: &mut Scratch,
) -> Result<Reading, NotRead>
    ensures ok { IfOk result
        (slots.IsOfText (λ d reading. slots.IsReading plan.now reading d) text.now) }
    ensures err { result ≡ Err NotRead.NotJson → read text.now ≡ None }
{
    let Some(fields) = whole_text::<FileFields>(alloc, plan, text, scratch)? else {
        return Ok(Reading::NoJournals);
    };
    let Some(given) = fields.plan() else {
        return Ok(Reading::NoJournals);
    };
    if given != *plan {
        return Ok(Reading::OtherPlan(given));
    }
    match journals_from(alloc, given.levels, fields)? {
        Some(journals) => Ok(Reading::Journals(journals)),
        None => Ok(Reading::NoJournals),
    }
}
