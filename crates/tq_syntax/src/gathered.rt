//! The scripts of the lines so far.

ghost use Rattle.std.specs.Prelude.{◌≡◌, IfOk};
ghost use Rattle.tq_syntax.specs.ClientLine.{client_line_of};
ghost use Rattle.tq_syntax.specs.Gathering.{gathered_with, next_client, nothing_gathered, said_more, scripts_so_far, IsFinished, IsGatheredWith};

use crate::client::ClientLine;
use crate::fault::ScriptFault;
use crate::reader::CLIENT_LIMIT;
use crate::script::{Line, Script};
use std::alloc::Global;
use std::marker::Model;
use tq_shape::Memory;

/// What was gathered of the lines so far: the scripts that ended, and the lines of the client whose script goes on.
#[derive(Drop)]
pub(crate) struct Gathered {
    ended: Vec<Script>,
    going: Option<Vec<Line>>,
}

impl Model for Gathered {
    ghost use Rattle.std.specs.{Global.Vec, Option.option_map};
    ghost use Rattle.tq_syntax.specs.{declared.script.Line.Line, Gathering.Gathering};

    ghost Value = { Gathering };

    ghost view = { λ gathered. record {
      ended = gathered.ended.items;
      going = option_map (λ (lines : Vec Line). lines.items) gathered.going;
    } };
}

impl Gathered {
    /// No line came yet.
    pub(crate) fn new(alloc: Global) -> Gathered
        ensures { result ≡ nothing_gathered }
    {
        Gathered {
            ended: Vec::new(alloc),
            going: None,
        }
    }

    /// What is gathered with the line of this number, which these bytes spell.
    pub(crate) fn with_bytes(
        self,
        alloc: Global,
        bytes: &[u8],
        number: u64,
    ) -> Result<Gathered, ScriptFault>
        ensures { IsGatheredWith self (client_line_of bytes.now) number result }
    {
        let line = ClientLine::of(alloc, bytes)?;
        match self.with_line(alloc, line)? {
            Some(gathered) => Ok(gathered),
            None => Err(ScriptFault::Bad { line: number }),
        }
    }

    /// What is gathered with one line more, if the line may come now.
    fn with_line(self, alloc: Global, line: ClientLine) -> Result<Option<Gathered>, Memory>
        ensures { IfOk result (λ gathered. gathered ≡ gathered_with self line) }
    {
        match line {
            ClientLine::Empty => Ok(Some(self)),
            ClientLine::Bad => Ok(None),
            ClientLine::Client => self.with_client(alloc),
            ClientLine::Said(line) => self.with_said(line),
        }
    }

    /// The next client's script begins, if there may be one more.
    fn with_client(self, alloc: Global) -> Result<Option<Gathered>, Memory>
        ensures { IfOk result (λ gathered. gathered ≡ next_client self) }
    {
        let ended = self.scripts()?;
        if ended.len() >= CLIENT_LIMIT {
            return Ok(None);
        }
        Ok(Some(Gathered {
            ended,
            going: Some(Vec::new(alloc)),
        }))
    }

    /// The client whose script goes on says this line, if there is one.
    fn with_said(self, line: Line) -> Result<Option<Gathered>, Memory>
        ensures { IfOk result (λ gathered. gathered ≡ said_more self line) }
    {
        let Gathered { ended, going } = self;
        let Some(mut lines) = going else {
            return Ok(None);
        };
        lines.push(line)?;
        Ok(Some(Gathered {
            ended,
            going: Some(lines),
        }))
    }

    /// The scripts, where no more lines come. There must be one.
    pub(crate) fn finish(self) -> Result<Vec<Script>, ScriptFault>
        ensures { IsFinished self result }
    {
        let scripts = self.scripts()?;
        if scripts.is_empty() {
            return Err(ScriptFault::Bad { line: 1 });
        }
        Ok(scripts)
    }

    /// The scripts of all lines that came, where no more come.
    fn scripts(self) -> Result<Vec<Script>, Memory>
        ensures { IfOk result (λ scripts. scripts.items ≡ scripts_so_far self) }
    {
        let Gathered { mut ended, going } = self;
        if let Some(lines) = going {
            ended.push(Script::new(lines))?;
        }
        Ok(ended)
    }
}
