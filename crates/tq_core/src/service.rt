//! The service: all parts, their tables and their journals.

ghost use Rattle.std.specs.Prelude.{◌≡◌, ◌+◌, ◌-◌, ◌^◌, IfOk, OnOk, OnErr, length};
ghost use Rattle.std.specs.Option.{option_copied, option_map};
ghost use Rattle.tq_tables.specs.{Parts.AreLegal, Tables.tables_of};
ghost use Rattle.tq_core.specs.Service as asks;

use crate::{
    Answer, Answered, Citation, CitedEntries, Journal, Refusal, Reply, Step, Warrant, item_at,
};
use std::alloc::Global;
use std::marker::Model;
use tq_asks::{NodeAsk, NodeReply};
use tq_desk::{ByRules, DeskAsk, DeskReply};
use tq_live::{View, ViewAsk, ViewReply};
use tq_shape::{AskFault, Levels, Limits, Memory, Part, ServerId, make_room};
use tq_tables::{DeskEntry, Entry, Journals, NodeEntry, Replies, TabledJournals, Tables};

/// All parts of a system, which the tables follow, and beside them a journal of each: its servers, its desk and its
/// view. Each ask that a part answers is entered into the part's journal with the reply, and changes the rows of the
/// tables that it is about.
#[derive(Drop)]
pub struct Service {
    tabled: TabledJournals,
}

impl Model for Service {
    ghost use Rattle.tq_tables.specs.{Journals.JournalsView, Tabled.journals_of};
    ghost use Rattle.tq_core.specs.Service.{IsService};

    ghost Value = { JournalsView };

    ghost view = { λ a. journals_of a.tabled };

    ghost invariant = { λ a. IsService a.tabled.tables (journals_of a.tabled) };
}

impl CitedEntries for Service {
    ghost journals = { λ service. service };

    fn server_entry(&self, server: u64, number: u64) -> Option<&NodeEntry> {
        match self.server_journal(server) {
            Some(entries) => item_at(entries, number),
            None => None,
        }
    }

    fn desk_entry(&self, number: u64) -> Option<&DeskEntry> {
        item_at(self.desk_journal(), number)
    }
}

impl Service {
    ghost use Rattle.tq_core.specs.World as world;
    ghost use Rattle.tq_core.specs.Steps as spec;
    ghost use Rattle.tq_core.specs.Headline.{HasCommittedReads, OffersBest, AreOffered, Headline};
    ghost use Rattle.tq_core.specs.Service.{answer_of, told_by};
    ghost use Rattle.tq_tables.specs.Journals.{no_entries};

    /// A service that was asked nothing: each server is up and has stored nothing.
    pub fn new(alloc: Global, levels: Levels, limits: Limits) -> Result<Service, Memory>
        ensures { IfOk result (λ service. service ≡ no_entries levels limits) }
    {
        let tabled = TabledJournals::new(alloc, levels, limits)?;
        Ok(Service { tabled })
    }

    /// A service that has taken these journals: each part stands as its journal leaves it. The entries are not copied.
    pub fn resume(alloc: Global, journals: Journals) -> Result<Service, Memory>
        requires { spec.IsOfRun journals }
        ensures { IfOk result (λ service. service ≡ journals) }
    {
        let tabled = TabledJournals::of(alloc, journals)?;
        Ok(Service { tabled })
    }

    /// The limits of the system.
    pub fn limits(&self) -> Limits
        ensures { result ≡ self.now.limits }
    {
        self.tabled.limits
    }

    /// The view, as its journal leaves it.
    pub fn view(&self) -> &View
        ensures { result.now ≡ world.view_at self.now.levels self.now.view }
    {
        let _ = &self.tabled.limits;
        self.tabled.tables.view()
    }

    /// The tables, as all journals leave them.
    pub fn tables(&self) -> &Tables
        ensures value { result.now ≡ tables_of self.now }
        ensures headline { Headline self.now result.now }
    {
        let _ = &self.tabled.limits;
        &self.tabled.tables
    }

    /// The journals. It takes no memory.
    pub fn into_journals(self) -> Journals
        ensures value { result ≡ self }
        ensures legal { AreLegal result }
        ensures committed_reads { HasCommittedReads result }
    {
        let Service { tabled } = self;
        tabled.into_journals()
    }

    /// The entries of a server, if there is such a server.
    pub(crate) fn server_journal(&self, server: u64) -> Option<&[NodeEntry]>
        ensures { option_copied result ≡ world.item_at self.now.servers server }
    {
        match item_at(self.tabled.servers.as_slice(), server) {
            Some(entries) => Some(entries.as_slice()),
            None => None,
        }
    }

    /// The journal of a part, None where there is no such server.
    pub fn journal(&self, part: Part) -> Option<Journal<'_>>
        ensures { option_map world.entries_of result
            ≡ world.journal_of self.now part }
    {
        match part {
            Part::Server(server) => match self.server_journal(server) {
                Some(entries) => Some(Journal::Server(entries)),
                None => None,
            },
            Part::Desk => Some(Journal::Desk(self.tabled.desk.as_slice())),
            Part::View => Some(Journal::View(self.tabled.view.as_slice())),
        }
    }

    /// The entries of the desk.
    pub(crate) fn desk_journal(&self) -> &[DeskEntry]
        ensures { result.now ≡ self.now.desk }
    {
        self.tabled.desk.as_slice()
    }

    /// The journals are those of a run: this does nothing, and says what follows.
    fn show_run(&self)
        ensures { HasCommittedReads self.now }
    {
        let _ = &self.tabled.limits;
    }

    /// Why an ask of a part that has so many entries is not taken: the journal is full, or the ask cites this, which does
    /// not stand.
    fn refusal(&self, part: Part, entries: usize, unfounded: Option<Citation>) -> Option<AskFault>
        ensures { option_map asks.refusal_of result
            ≡ spec.refuse_entry self.now part entries unfounded }
    {
        if entries >= self.tabled.limits.entries() as usize {
            return Some(AskFault::JournalFull { part });
        }
        match unfounded {
            Some(Citation { part, number }) => Some(AskFault::Unfounded { part, number }),
            None => None,
        }
    }

    /// Asks a server: the ask is entered into its journal with its reply, which is told with the number of the entry.
    /// `J` finds the entry that it cites. Where the ask is not taken, everything is as it was.
    #[inline(always)]
    pub fn ask_node<J: Warrant>(
        &mut self,
        alloc: Global,
        server: ServerId,
        ask: NodeAsk,
    ) -> Result<Answered<NodeReply>, AskFault>
        requires tree { server.levels ≡ self.old.levels }
        requires founded { J.founds_node self.old ask }
        ensures told { spec.IsTold self.old (Step.Node server.number ask)
            (told_by Reply.Node result) }
        ensures after { OnOk result (self.new
            ≡ spec.world_after self.old (Step.Node server.number ask)) }
        ensures err { OnErr result (self.new ≡ self.old) }
        ensures committed_reads { HasCommittedReads self.new }
    {
        self.show_run();
        let number = server.number();
        let place = (number - 1) as usize;
        let unfounded = J::unfounded_node(self, &ask);
        let entries = self.tabled.servers[place].len();
        if let Some(fault) = self.refusal(Part::Server(number), entries, unfounded) {
            return Err(fault);
        }
        let next = entries as u64 + 1;
        let journal = &mut self.tabled.servers[place];
        make_room(journal, 1)?;
        let replies = self.tabled.tables.ask_node(alloc, number, next, &ask)?;
        let Replies { entered, told } = replies;
        journal.push_reserved(Entry {
            ask,
            reply: entered,
        });
        self.show_run();
        Ok(Answered {
            number: next,
            reply: told,
        })
    }

    /// Asks the desk: the ask is entered into its journal with its reply, which is told with the number of the entry.
    /// Of a commit `J` judges the evidence, and finds the entries that it cites. Where the ask is not taken, everything
    /// is as it was.
    pub fn ask_desk<J: Warrant>(
        &mut self,
        alloc: Global,
        ask: DeskAsk,
    ) -> Result<Answered<DeskReply>, AskFault>
        requires judged { J.takes self.old.levels ask }
        requires founded { J.founds self.old ask }
        ensures told { spec.IsTold self.old (Step.Desk ask) (told_by Reply.Desk result) }
        ensures after { OnOk result (self.new ≡ spec.world_after self.old (Step.Desk ask)) }
        ensures err { OnErr result (self.new ≡ self.old) }
        ensures committed_reads { HasCommittedReads self.new }
    {
        self.show_run();
        let unfounded = J::unfounded(self, &ask);
        let entries = self.tabled.desk.len();
        if let Some(fault) = self.refusal(Part::Desk, entries, unfounded) {
            return Err(fault);
        }
        make_room(&mut self.tabled.desk, 1)?;
        let replies = self.tabled.tables.ask_desk::<J>(alloc, &ask)?;
        let Replies { entered, told } = replies;
        self.tabled.desk.push_reserved(Entry {
            ask,
            reply: entered,
        });
        self.show_run();
        Ok(Answered {
            number: entries as u64 + 1,
            reply: told,
        })
    }

    /// Asks the view: the ask is entered into its journal with its reply, which is told with the number of the entry.
    /// Where the ask is not taken, everything is as it was.
    #[inline(always)]
    pub fn ask_view(&mut self, alloc: Global, ask: ViewAsk) -> Result<Answered<ViewReply>, AskFault>
        ensures told { spec.IsTold self.old (Step.View ask) (told_by Reply.View result) }
        ensures after { OnOk result (self.new ≡ spec.world_after self.old (Step.View ask)) }
        ensures offered { IfOk result (λ told.
            OffersBest self.old (Step.View ask) (answer_of Reply.View told)) }
        ensures err { OnErr result (self.new ≡ self.old) }
        ensures committed_reads { HasCommittedReads self.new }
    {
        self.show_run();
        let entries = self.tabled.view.len();
        if let Some(fault) = self.refusal(Part::View, entries, None) {
            return Err(fault);
        }
        make_room(&mut self.tabled.view, 1)?;
        let replies = self.tabled.tables.ask_view(alloc, &ask)?;
        let Replies { entered, told } = replies;
        self.tabled.view.push_reserved(Entry {
            ask,
            reply: entered,
        });
        self.show_run();
        Ok(Answered {
            number: entries as u64 + 1,
            reply: told,
        })
    }

    /// Takes a step: asks a part, and enters the ask with the part's reply into its journal. Where the step is
    /// refused, or memory is, everything is as it was.
    pub fn step(&mut self, alloc: Global, step: Step) -> Result<Answer, Refusal>
        ensures told { spec.IsTold self.old step result }
        ensures after { OnOk result (self.new ≡ spec.world_after self.old step) }
        ensures offered { IfOk result (λ answered. OffersBest self.old step answered) }
        ensures err { OnErr result (self.new ≡ self.old) }
        ensures committed_reads { HasCommittedReads self.new }
    {
        let _ = &self.tabled.limits;
        match step {
            Step::Node { server, ask } => {
                let Some(id) = self.tabled.tables.levels().server(server) else {
                    self.show_run();
                    return Err(Refusal::NoSuchServer);
                };
                match self.ask_node::<ByRules>(alloc, id, ask) {
                    Ok(told) => Ok(Answer {
                        number: told.number,
                        reply: Reply::Node(told.reply),
                    }),
                    Err(fault) => Err(refusal_of(fault)),
                }
            }
            Step::Desk(ask) => match self.ask_desk::<ByRules>(alloc, ask) {
                Ok(told) => Ok(Answer {
                    number: told.number,
                    reply: Reply::Desk(told.reply),
                }),
                Err(fault) => Err(refusal_of(fault)),
            },
            Step::View(ask) => match self.ask_view(alloc, ask) {
                Ok(told) => Ok(Answer {
                    number: told.number,
                    reply: Reply::View(told.reply),
                }),
                Err(fault) => Err(refusal_of(fault)),
            },
        }
    }

    /// Takes the steps, one after another. Out of memory here, no step was taken.
    pub fn run(
        &mut self,
        alloc: Global,
        steps: Vec<Step>,
    ) -> Result<Vec<Result<Answer, Refusal>>, Memory>
        ensures told { IfOk result (λ results. spec.AreTold self.old steps.items results.items) }
        ensures after { IfOk result (λ results.
            self.new ≡ spec.run_from self.old (spec.taken_steps steps.items results.items)) }
        ensures err { OnErr result (self.new ≡ self.old) }
        ensures offered { IfOk result (λ results. AreOffered self.old steps.items results.items) }
        ensures committed_reads { HasCommittedReads self.new }
    {
        let _ = &self.tabled.limits;
        let results = self.take(alloc, steps)?;
        Ok(results)
    }

    fn take(
        &mut self,
        alloc: Global,
        steps: Vec<Step>,
    ) -> Result<Vec<Result<Answer, Refusal>>, Memory>
        ensures told { IfOk result (λ results. spec.AreTold self.old steps.items results.items) }
        ensures after { IfOk result (λ results.
            self.new ≡ spec.run_from self.old (spec.taken_steps steps.items results.items)) }
        ensures err { OnErr result (self.new ≡ self.old) }
        ensures committed_reads { HasCommittedReads self.new }
    {
        let _ = &self.tabled.limits;
        let mut results = Vec::with_capacity(alloc, steps.len())?;
        for step in steps {
            let result = self.step(alloc, step);
            results.push_reserved(result);
        }
        Ok(results)
    }
}

/// Why a step is refused where its ask is not taken.
fn refusal_of(fault: AskFault) -> Refusal
    ensures { result ≡ asks.refusal_of fault }
{
    match fault {
        AskFault::Memory => Refusal::Memory,
        AskFault::JournalFull { part } => Refusal::JournalFull { part },
        AskFault::Unfounded { part, number } => Refusal::Unfounded { part, number },
    }
}
