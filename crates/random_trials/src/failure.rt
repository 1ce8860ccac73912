// Why the trials end early.
use std::alloc::AllocError;
use std::io;
use thiserror::Error;

// What the counts of a file do not agree in.
#[derive(Clone, Copy, Debug, Error)]
pub enum Disagreement {
    #[error("refused")]
    Refused,
    #[error("strengths disagree")]
    Strengths,
    #[error("paths disagree")]
    Paths,
    #[error("cuts disagree")]
    Cuts,
    #[error("best disagrees")]
    Best,
    #[error("orders disagree")]
    Orders,
    #[error("orders disagree by a tie-break")]
    TieBreakOrders,
    #[error("orders disagree by a draw")]
    DrawnOrders,
    #[error("draws disagree")]
    Draws,
    #[error("sheets disagree")]
    Sheets,
    #[error("striking disagrees")]
    Striking,
}

#[derive(Debug, Drop, Error)]
pub enum Failure {
    // Beside the file stands what else the trial is about: a sheet, a draw, a struck file, or nothing.
    #[error("{what}: {file:?} {beside:?}")]
    Trial {
        what: Disagreement,
        file: Vec<u8>,
        beside: Vec<u8>,
    },
    #[error(transparent)]
    Memory(#[from(alloc)] AllocError),
    #[error(transparent)]
    Output(#[from] io::Error),
}
