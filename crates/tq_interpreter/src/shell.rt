//! Any line of the shell.

ghost use Rattle.std.specs.Prelude.{◌≡◌, ◌++◌, ◌<◌, ◌+◌, ℕ, [], false, length, None, IfOk, OnOk, OnErr, IfSome, IsNone, vec_len, vec_capacity};
ghost use Rattle.std.specs.Fmt.{decimal};
ghost use Rattle.tq_txn.specs.Dialogue.{line_result};
ghost use Rattle.tq_interpreter.specs.Answer as asked;
ghost use Rattle.tq_interpreter.specs.Known as known;
ghost use Rattle.tq_interpreter.specs.TxnAsked as said;
ghost use Rattle.tq_text.specs.Print.{Extends, printed_line, mark_word, Appends, Prints};

use crate::answering::answer_txn;
use crate::operators::{refresh_all, say_board};
use crate::recorder::Recorder;
use crate::txn_slot::TxnSlot;
use std::alloc::Global;
use std::marker::Model;
use tq_core::Service;
use tq_desk::{DeskAsk, DeskReply};
use tq_live::{Purpose, ViewAsk, is_cost};
use tq_shape::{Levels, Limits, Memory, ServerId};
use tq_syntax::Line;
use tq_text::{push_desk_refusal, say_choice, say_fault, say_line, say_number};
use tq_txn::{AskFault, Asker, DeskTold, LineFault, Open, Txn, ViewTold, mark_server};

/// A service that lines are asked of, and what is known of the transactions.
#[derive(Drop)]
pub struct Shell {
    levels: Levels,
    limits: Limits,
    recorder: Recorder,
    /// How many transactions others had begun.
    others: u64,
    txns: Vec<TxnSlot>,
}

impl Model for Shell {
    ghost use Rattle.std.specs.Prelude.{◌≡◌};
    ghost use Rattle.tq_interpreter.specs.{Answer.World, Known.AreKept};

    ghost Value = { World };

    ghost view = { λ shell. record {
      journals = shell.recorder.journals;
      known = record {
        levels = shell.levels;
        limits = shell.limits;
        others = shell.others;
        txns = shell.txns.items;
      };
    } };

    ghost invariant = { λ shell.
        (shell.recorder.journals.levels ≡ shell.levels) × AreKept shell.recorder shell.txns.items };
}

impl Shell {
    ghost use Rattle.std.specs.Prelude.{◌≡◌, ◌++◌, IfOk, OnOk, OnErr};
    ghost use Rattle.tq_interpreter.specs.{Known.known_at, Answer.{opening, over, answer, given_by, IsWhole}};
    ghost use Rattle.tq_text.specs.Print.{Extends};

    /// Every server at cost 1 and up, nothing stored, and no transaction.
    pub fn new(alloc: Global, levels: Levels) -> Result<Shell, Memory>
        ensures { IfOk result (λ shell. shell ≡ opening levels) }
    {
        let limits = Limits::full();
        let recorder = Recorder::new(alloc, levels)?;
        Ok(Shell {
            levels,
            limits,
            recorder,
            others: 0,
            txns: Vec::new(alloc),
        })
    }

    /// A shell over this service, in which no line began a transaction yet: the desk's numbers go on.
    pub fn over(alloc: Global, service: Service) -> Shell
        ensures { result ≡ over service }
    {
        let limits = service.limits();
        let levels = service.tables().levels();
        let others = service.tables().desk().begun();
        Shell {
            levels,
            limits,
            recorder: Recorder::over(service),
            others,
            txns: Vec::new(alloc),
        }
    }

    /// The service that lines are asked of.
    pub fn service(&self) -> &Service
        ensures { result.now ≡ self.now.journals }
    {
        self.recorder.service()
    }

    /// Answers one line, and puts the answer behind the text.
    pub fn answer(&mut self, alloc: Global, line: Line, text: &mut Vec<u8>) -> Result<(), Memory>
        ensures text { OnOk result (Appends text.old text.new (answer self.old line).text) }
        ensures after { OnOk result (self.new ≡ (answer self.old line).after) }
        ensures begun { OnErr result (line ≡ Line.Begin → IsWhole self.old line self.new) }
        ensures kept { OnErr result (Extends text.old.items text.new.items) }
    {
        let _ = &self.recorder;
        match line {
            Line::Empty => Ok(()),
            Line::Bad => say_line(text, b"bad line"),
            Line::Cost {
                server,
                read,
                write,
            } => self.cost(alloc, server, read, write, text),
            Line::Mark { server, up } => self.mark(alloc, server, up, text),
            Line::Choose { purpose } => self.choose(alloc, purpose, text),
            Line::Begin => self.begin(alloc, text),
            Line::Refresh => self.refresh(alloc, text),
            Line::Board => self.board(alloc, text),
            Line::Txn { number, line } => match self.place_of(number) {
                None => say_number(text, b"no such transaction ", number),
                Some(place) => {
                    let levels = self.levels;
                    let kept = &mut self.txns[place];
                    answer_txn(&mut self.recorder, alloc, levels, number, kept, line, text)?;
                    Ok(())
                }
            },
        }
    }

    fn cost(
        &mut self,
        alloc: Global,
        server: u64,
        read: u64,
        write: u64,
        text: &mut Vec<u8>,
    ) -> Result<(), Memory>
        ensures text { OnOk result (Appends text.old text.new
            (answer self.old (Line.Cost server read write)).text) }
        ensures after { OnOk result
            (self.new ≡ (answer self.old (Line.Cost server read write)).after) }
        ensures kept { OnErr result (Extends text.old.items text.new.items) }
    {
        if self.levels.server(server).is_none() {
            return say_number(text, b"no such server ", server);
        }
        if !is_cost(read) {
            return say_number(text, b"bad cost ", read);
        }
        if !is_cost(write) {
            return say_number(text, b"bad cost ", write);
        }
        self.set_cost(alloc, server, read, write, text)
    }

    fn set_cost(
        &mut self,
        alloc: Global,
        server: u64,
        read: u64,
        write: u64,
        text: &mut Vec<u8>,
    ) -> Result<(), Memory>
        ensures text { OnOk result (Appends text.old text.new
            (given_by self.old (λ k. asked.cost_asked k server read write)).text) }
        ensures after { OnOk result (self.new
            ≡ (given_by self.old (λ k. asked.cost_asked k server read write)).after) }
        ensures kept { OnErr result (Extends text.old.items text.new.items) }
    {
        self.recorder.show_replayed();
        let ask = ViewAsk::SetCost {
            server,
            read,
            write,
        };
        let answer = self.recorder.view(alloc, ask);
        self.recorder.show_replayed();
        say_ok(text, &answer)?;
        Ok(())
    }

    fn mark(
        &mut self,
        alloc: Global,
        server: u64,
        up: bool,
        text: &mut Vec<u8>,
    ) -> Result<(), Memory>
        ensures text { OnOk result
            (Appends text.old text.new (answer self.old (Line.Mark server up)).text) }
        ensures after { OnOk result (self.new ≡ (answer self.old (Line.Mark server up)).after) }
        ensures kept { OnErr result (Extends text.old.items text.new.items) }
    {
        let Some(id) = self.levels.server(server) else {
            return say_number(text, b"no such server ", server);
        };
        self.set_mark(alloc, id, up, text)
    }

    fn set_mark(
        &mut self,
        alloc: Global,
        id: ServerId,
        up: bool,
        text: &mut Vec<u8>,
    ) -> Result<(), Memory>
        requires { id.levels ≡ self.old.journals.levels }
        ensures text { OnOk result (Appends text.old text.new
            (given_by self.old (λ k. asked.mark_asked k id.number up)).text) }
        ensures after { OnOk result (self.new
            ≡ (given_by self.old (λ k. asked.mark_asked k id.number up)).after) }
        ensures kept { OnErr result (Extends text.old.items text.new.items) }
    {
        let server = id.number();
        self.recorder.show_replayed();
        let answer = mark_server(&mut self.recorder, alloc, id, up);
        self.recorder.show_replayed();
        say_marked(text, server, up, &answer)?;
        Ok(())
    }

    fn choose(&mut self, alloc: Global, purpose: Purpose, text: &mut Vec<u8>) -> Result<(), Memory>
        ensures text { OnOk result
            (Appends text.old text.new (answer self.old (Line.Choose purpose)).text) }
        ensures after { OnOk result (self.new ≡ (answer self.old (Line.Choose purpose)).after) }
        ensures kept { OnErr result (Extends text.old.items text.new.items) }
    {
        self.recorder.show_replayed();
        let answer = self.recorder.view(alloc, ViewAsk::Choose { purpose });
        self.recorder.show_replayed();
        say_chosen(text, &answer)?;
        Ok(())
    }

    /// Begins a transaction. Room for it is made before the desk is asked, so that one whose number was told is kept.
    fn begin(&mut self, alloc: Global, text: &mut Vec<u8>) -> Result<(), Memory>
        ensures text { OnOk result (Appends text.old text.new (answer self.old Line.Begin).text) }
        ensures after { OnOk result (self.new ≡ (answer self.old Line.Begin).after) }
        ensures whole { OnErr result (IsWhole self.old Line.Begin self.new) }
        ensures kept { OnErr result (Extends text.old.items text.new.items) }
    {
        self.txns.reserve(1)?;
        self.recorder.show_replayed();
        let answer = self.recorder.desk(alloc, DeskAsk::Begin);
        self.recorder.show_replayed();
        let (levels, limits) = (self.levels, self.limits);
        begin_end(&mut self.txns, alloc, levels, limits, answer, text)?;
        Ok(())
    }

    fn refresh(&mut self, alloc: Global, text: &mut Vec<u8>) -> Result<(), Memory>
        ensures text { OnOk result (Appends text.old text.new (answer self.old Line.Refresh).text) }
        ensures after { OnOk result (self.new ≡ (answer self.old Line.Refresh).after) }
        ensures kept { OnErr result (Extends text.old.items text.new.items) }
    {
        refresh_all(&mut self.recorder, alloc, text)?;
        Ok(())
    }

    fn board(&self, alloc: Global, text: &mut Vec<u8>) -> Result<(), Memory>
        ensures text { OnOk result (Appends text.old text.new (answer self.now Line.Board).text) }
        ensures kept { OnErr result (Extends text.old.items text.new.items) }
    {
        say_board(self.service(), alloc, text)?;
        Ok(())
    }

    /// Where the transaction of that number is kept.
    fn place_of(&self, number: u64) -> Option<usize>
        ensures some { IfSome result (λ place.
            (number ≡ self.now.known.others + place + 1)
            × (place < length self.now.known.txns)) }
        ensures none { IsNone result → known_at self.now.known number ≡ None }
    {
        if number <= self.others || number - self.others > self.txns.len() as u64 {
            return None;
        }
        Some((number - self.others - 1) as usize)
    }
}

/// Keeps the transaction that the desk began in a list that has room for it, and puts the answer behind the text. Memory is
/// taken for the text alone.
fn begin_end(
    txns: &mut Vec<TxnSlot>,
    alloc: Global,
    levels: Levels,
    limits: Limits,
    answer: Result<DeskTold, AskFault>,
    text: &mut Vec<u8>,
) -> Result<(), Memory>
    requires { vec_len txns.old < vec_capacity txns.old }
    ensures text { OnOk result ((others : ℕ) → Appends text.old text.new
        (asked.begin_end (known.known_of levels limits others txns.old)
        (line_result answer)).text) }
    ensures known { (others : ℕ) → (asked.begin_end
        (known.known_of levels limits others txns.old) (line_result answer)).known
        ≡ known.known_of levels limits others txns.new }
    ensures memory { OnOk result (said.is_refused_memory (line_result answer) ≡ false) }
    ensures kept { OnErr result (Extends text.old.items text.new.items) }
{
    match answer {
        Ok(told) => begin_reply(txns, alloc, levels, limits, told.reply, text)?,
        Err(fault) => say_fault(text, &[], LineFault::from(fault))?,
    }
    Ok(())
}

/// The same for the desk's answer.
fn begin_reply(
    txns: &mut Vec<TxnSlot>,
    alloc: Global,
    levels: Levels,
    limits: Limits,
    reply: DeskReply,
    text: &mut Vec<u8>,
) -> Result<(), Memory>
    requires { vec_len txns.old < vec_capacity txns.old }
    ensures text { OnOk result ((others : ℕ) → Appends text.old text.new
        (asked.begin_reply (known.known_of levels limits others txns.old) reply).text) }
    ensures known { (others : ℕ) →
        (asked.begin_reply (known.known_of levels limits others txns.old) reply).known
        ≡ known.known_of levels limits others txns.new }
    ensures kept { OnErr result (Extends text.old.items text.new.items) }
{
    match reply {
        DeskReply::Txn(number) => {
            txns.push_reserved(fresh(alloc, levels, limits, number));
            say_number(text, b"begun ", number)
        }
        DeskReply::Refused(refusal) => {
            push_desk_refusal(text, &refusal)?;
            say_line(text, b"")
        }
        _ => say_line(text, b"bad answer"),
    }
}

/// A transaction that did nothing yet.
fn fresh(alloc: Global, levels: Levels, limits: Limits, number: u64) -> TxnSlot
    ensures { result ≡ known.fresh levels limits number }
{
    TxnSlot {
        txn: Txn::Open(Open::new(alloc, levels, limits, number)),
        told: None,
    }
}

/// Puts that a cost was set behind the text, as a line, or why it was not.
fn say_ok(text: &mut Vec<u8>, answer: &Result<ViewTold, AskFault>) -> Result<(), Memory>
    ensures text { OnOk result (Prints text.old text.new
        (said.result_text [] asked.ok_text (line_result answer.now))) }
    ensures memory { OnOk result (said.is_refused_memory (line_result answer.now) ≡ false) }
    ensures kept { OnErr result (Extends text.old.items text.new.items) }
{
    match answer {
        Ok(_told) => say_line(text, b"ok")?,
        Err(fault) => say_fault(text, &[], LineFault::from(*fault))?,
    }
    Ok(())
}

/// Puts what the view chose behind the text, as a line, or why it did not.
fn say_chosen(text: &mut Vec<u8>, answer: &Result<ViewTold, AskFault>) -> Result<(), Memory>
    ensures text { OnOk result (Prints text.old text.new
        (said.result_text [] asked.chosen_text (line_result answer.now))) }
    ensures memory { OnOk result (said.is_refused_memory (line_result answer.now) ≡ false) }
    ensures kept { OnErr result (Extends text.old.items text.new.items) }
{
    match answer {
        Ok(told) => say_choice(text, &told.reply)?,
        Err(fault) => say_fault(text, &[], LineFault::from(*fault))?,
    }
    Ok(())
}

/// Puts a server's new mark behind the text, as a line, or why it has none.
fn say_marked(
    text: &mut Vec<u8>,
    server: u64,
    up: bool,
    answer: &Result<ViewTold, AskFault>,
) -> Result<(), Memory>
    ensures text { OnOk result (Prints text.old text.new
        (said.result_text [] (asked.marked_text server up) (line_result answer.now))) }
    ensures memory { OnOk result (said.is_refused_memory (line_result answer.now) ≡ false) }
    ensures kept { OnErr result (Extends text.old.items text.new.items) }
{
    match answer {
        Ok(_told) => say_mark(text, server, up)?,
        Err(fault) => say_fault(text, &[], LineFault::from(*fault))?,
    }
    Ok(())
}

/// Puts a server's new mark behind the text, as a line.
fn say_mark(text: &mut Vec<u8>, server: u64, up: bool) -> Result<(), Memory>
    ensures text { OnOk result (Prints text.old text.new (mark_word up ++ decimal server)) }
    ensures kept { OnErr result (Extends text.old.items text.new.items) }
{
    if up {
        say_number(text, b"up ", server)
    } else {
        say_number(text, b"down ", server)
    }
}
