use crate::list::{Bytes, Duplicate, List};
use crate::memory::Memory;
use crate::number::Obj;
use crate::value::Value;
use std::alloc::Global;

/// A command of a session.
#[derive(Debug, Drop)]
pub enum Command {
    Select(Select),
    Populate { obj: Obj },
    Sync,
    ShowScn,
    Abort,
}

/// A query over one object. Columns count from 1.
#[derive(Debug, Drop)]
pub struct Select {
    pub obj: Obj,
    pub what: What,
    pub conditions: ConditionList,
    pub group: Option<u8>,
}

/// What a query gives: the rows, or aggregates of them.
#[derive(Debug, Drop)]
pub enum What {
    All,
    Aggregates(AggList),
}

/// A number or a value that sums up rows; three of them are of one column.
#[derive(Clone, Copy, Debug, PartialEq, Eq)]
pub enum Aggregate {
    Count,
    Sum(u8),
    Min(u8),
    Max(u8),
}

/// A list of aggregates.
pub type AggList = List<Aggregate>;

/// A test of one column.
#[derive(Debug, Drop)]
pub struct Condition {
    pub column: u8,
    pub op: Op,
    pub literal: Value,
}

/// A list of conditions, all of which a row has to meet.
pub type ConditionList = List<Condition>;

/// How a condition compares.
#[derive(Clone, Copy, Debug, PartialEq, Eq)]
pub enum Op {
    Eq,
    Ne,
    Lt,
    Le,
    Gt,
    Ge,
}

/// A command text as a session sent it.
#[derive(Debug, Drop)]
pub struct CommandText {
    pub session: u8,
    pub text: Bytes,
}

/// The command texts of a delivery in the order in which they came.
pub type CommandList = List<CommandText>;

impl Duplicate for Command {
    fn copy(&self, alloc: Global) -> Result<Command, Memory> {
        match self {
            Command::Select(select) => Ok(Command::Select(select.copy(alloc)?)),
            Command::Populate { obj } => Ok(Command::Populate { obj: *obj }),
            Command::Sync => Ok(Command::Sync),
            Command::ShowScn => Ok(Command::ShowScn),
            Command::Abort => Ok(Command::Abort),
        }
    }
}

impl Duplicate for Select {
    fn copy(&self, alloc: Global) -> Result<Select, Memory> {
        let what = self.what.copy(alloc)?;
        let conditions = self.conditions.copy(alloc)?;
        Ok(Select {
            obj: self.obj,
            what,
            conditions,
            group: self.group,
        })
    }
}

impl Duplicate for What {
    fn copy(&self, alloc: Global) -> Result<What, Memory> {
        match self {
            What::All => Ok(What::All),
            What::Aggregates(list) => Ok(What::Aggregates(list.copy(alloc)?)),
        }
    }
}

impl Duplicate for Aggregate {
    fn copy(&self, _alloc: Global) -> Result<Aggregate, Memory> {
        Ok(*self)
    }
}

impl Duplicate for Condition {
    fn copy(&self, alloc: Global) -> Result<Condition, Memory> {
        let literal = self.literal.copy(alloc)?;
        Ok(Condition {
            column: self.column,
            op: self.op,
            literal,
        })
    }
}

impl Duplicate for CommandText {
    fn copy(&self, alloc: Global) -> Result<CommandText, Memory> {
        let text = self.text.copy(alloc)?;
        Ok(CommandText {
            session: self.session,
            text,
        })
    }
}
