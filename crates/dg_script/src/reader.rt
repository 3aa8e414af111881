//! What of a script is read so far.
ghost use Rattle.std.specs.Prelude.{◌≡◌, ◌++◌, ◌∷◌, [], List, Option, Some, None, OnOk, Result, is_some};

use crate::acts::Row;
use crate::command::{Act, BadLine, BlockSteps, Command, Script, ScriptCode, StepWords};
use crate::lines::read_line;
use crate::refusal::at_line;
use dg_base::Refusal;
use std::alloc::{AllocError, Global};

/// The block that isn't closed yet, and the line of its `begin`.
#[derive(Debug, Drop)]
pub(crate) struct Block {
    pub(crate) line: u32,
    pub(crate) steps: BlockSteps,
}

/// The commands so far, and the open block behind them.
#[derive(Debug, Drop)]
pub(crate) struct Reader {
    pub(crate) commands: Script,
    pub(crate) block: Option<Block>,
}

impl Reader {
    ghost use Rattle.dg_base.specs.Refusal.{Gives};
    ghost use Rattle.dg_script.specs.Script.{row_at, without_return, rest_by, ended};
    ghost use Rattle.dg_script.specs.Reader.{joined, line_of, closed, taken, step_taken, Reads};

    pub(crate) fn new(alloc: Global) -> Reader
        ensures { result ≡ record { commands = []; block = None } }
    {
        Reader {
            commands: Script::new(alloc),
            block: None,
        }
    }

    /// Reads a line. After an `Err` it isn't used again.
    pub(crate) fn read(
        &mut self,
        alloc: Global,
        number: u32,
        line: &[u8],
    ) -> Result<(), Refusal<BadLine>>
        ensures { Reads result self.old self.new number (row_at (is_some self.old.block) (without_return line.now)) }
    {
        let inside = self.block.is_some();
        match read_line(alloc, inside, line) {
            Ok(row) => self.take_row(alloc, number, row),
            Err(refusal) => Err(at_line(number, refusal)),
        }
    }

    fn take_row(&mut self, alloc: Global, number: u32, row: Row) -> Result<(), Refusal<BadLine>>
        ensures ok { OnOk result (self.new ≡ taken self.old number row) }
        ensures err { Rattle.std.specs.Prelude.IfErr result (λ e. e ≡ Refusal.NoMemory) }
    {
        match self.take(alloc, number, row) {
            Ok(()) => Ok(()),
            Err(_) => Err(Refusal::NoMemory),
        }
    }

    fn take(&mut self, alloc: Global, number: u32, row: Row) -> Result<(), AllocError>
        ensures { OnOk result (self.new ≡ taken self.old number row) }
    {
        match row {
            Row::Nothing => Ok(()),
            Row::Step(step) => self.take_step(number, step),
            Row::Begin => self.begin(alloc, number),
            Row::End => self.close(),
            Row::Act(act) => self.take_act(number, act),
        }
    }

    fn take_step(&mut self, number: u32, step: StepWords) -> Result<(), AllocError>
        ensures { OnOk result (self.new ≡ step_taken self.old.commands number step self.old.block) }
    {
        match &mut self.block {
            Some(block) => block.steps.push(step),
            None => self.commands.push(Command {
                line: number,
                act: Act::Step(step),
            }),
        }
    }

    fn take_act(&mut self, number: u32, act: Act) -> Result<(), AllocError>
        ensures { OnOk result (self.new ≡ record { commands = (self.old.commands ++ closed self.old.block) ++ record { line = number; act = act } ∷ []; block = None }) }
    {
        self.close()?;
        self.commands.push(Command { line: number, act })
    }

    fn begin(&mut self, alloc: Global, number: u32) -> Result<(), AllocError>
        ensures { OnOk result (self.new ≡ record { commands = self.old.commands ++ closed self.old.block; block = Some (record { line = number; steps = [] }) }) }
    {
        self.close()?;
        self.block = Some(Block {
            line: number,
            steps: BlockSteps::new(alloc),
        });
        Ok(())
    }

    /// The open block, if there is one, is a command.
    fn close(&mut self) -> Result<(), AllocError>
        ensures { OnOk result (self.new ≡ record { commands = self.old.commands ++ closed self.old.block; block = None }) }
    {
        match self.block.take() {
            Some(Block { line, steps }) => self.commands.push(Command {
                line,
                act: Act::Block { steps },
            }),
            None => Ok(()),
        }
    }

    /// The commands, where no block is open.
    pub(crate) fn finish(self) -> Result<Script, Refusal<BadLine>>
        ensures { Gives (λ x. x) result (joined self (ended (line_of self.block))) }
    {
        let Reader { commands, block } = self;
        match block {
            None => Ok(commands),
            Some(block) => Err(Refusal::Because(BadLine {
                line: block.line,
                code: ScriptCode::OpenBlock,
            })),
        }
    }
}
