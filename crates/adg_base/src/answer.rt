use crate::list::{Duplicate, List};
use crate::memory::Memory;
use crate::number::Scn;
use crate::text::Text;
use std::alloc::Global;

/// A cell of an answer. Numbers end at 128 bits.
#[derive(Debug, PartialEq, Drop)]
pub enum Cell {
    Null,
    Number(i128),
    Text(Text),
}

/// The cells of one result line.
pub type CellList = List<Cell>;

/// The result lines of a query.
pub type Answer = List<CellList>;

/// The reply to a command. Each but `Down` names the SCN at which it is true.
#[derive(Debug, Drop)]
pub enum Reply {
    /// The answer of a query; `col` of the object's rows came from column units, `row` from blocks.
    Rows {
        scn: Scn,
        answer: Answer,
        col: u64,
        row: u64,
    },
    /// `units` column units were installed.
    Populated {
        scn: Scn,
        units: u16,
    },
    Synced {
        scn: Scn,
    },
    Shown {
        scn: Scn,
    },
    Aborted {
        scn: Scn,
    },
    /// The text is no command: `byte` is the length of its longest prefix that begins one.
    BadQuery {
        scn: Scn,
        byte: u32,
    },
    NoTable {
        scn: Scn,
    },
    NotInMemory {
        scn: Scn,
    },
    NoColumn {
        scn: Scn,
    },
    WrongType {
        scn: Scn,
    },
    /// The round ended by an abort before the command was answered.
    Down,
}

/// A reply with its session and the number of its command in that session and delivery, from 1.
#[derive(Debug, Drop)]
pub struct Line {
    pub session: u8,
    pub number: u32,
    pub reply: Reply,
}

/// A list of lines.
pub type LineList = List<Line>;

/// The lines of a delivery, and the QuerySCN with which it ends.
#[derive(Debug, Drop)]
pub struct Lines {
    pub list: LineList,
    pub end: Scn,
}

impl Duplicate for Cell {
    fn copy(&self, alloc: Global) -> Result<Cell, Memory> {
        match self {
            Cell::Null => Ok(Cell::Null),
            Cell::Number(number) => Ok(Cell::Number(*number)),
            Cell::Text(text) => Ok(Cell::Text(text.copy(alloc)?)),
        }
    }
}

impl Duplicate for Reply {
    fn copy(&self, alloc: Global) -> Result<Reply, Memory> {
        match self {
            Reply::Rows {
                scn,
                answer,
                col,
                row,
            } => Ok(Reply::Rows {
                scn: *scn,
                answer: answer.copy(alloc)?,
                col: *col,
                row: *row,
            }),
            Reply::Populated { scn, units } => Ok(Reply::Populated {
                scn: *scn,
                units: *units,
            }),
            Reply::Synced { scn } => Ok(Reply::Synced { scn: *scn }),
            Reply::Shown { scn } => Ok(Reply::Shown { scn: *scn }),
            Reply::Aborted { scn } => Ok(Reply::Aborted { scn: *scn }),
            Reply::BadQuery { scn, byte } => Ok(Reply::BadQuery {
                scn: *scn,
                byte: *byte,
            }),
            Reply::NoTable { scn } => Ok(Reply::NoTable { scn: *scn }),
            Reply::NotInMemory { scn } => Ok(Reply::NotInMemory { scn: *scn }),
            Reply::NoColumn { scn } => Ok(Reply::NoColumn { scn: *scn }),
            Reply::WrongType { scn } => Ok(Reply::WrongType { scn: *scn }),
            Reply::Down => Ok(Reply::Down),
        }
    }
}

impl Duplicate for Line {
    fn copy(&self, alloc: Global) -> Result<Line, Memory> {
        let reply = self.reply.copy(alloc)?;
        Ok(Line {
            session: self.session,
            number: self.number,
            reply,
        })
    }
}

impl Duplicate for Lines {
    fn copy(&self, alloc: Global) -> Result<Lines, Memory> {
        let list = self.list.copy(alloc)?;
        Ok(Lines {
            list,
            end: self.end,
        })
    }
}
