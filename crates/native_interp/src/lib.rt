//! The interpreter of GPL as words of the TMS9900, with its source and the addresses of its routines. They are data:
//! nothing runs them here.
#![tactic(auto)]

mod addresses;
mod laws;
mod source;
mod words;

pub use addresses::{
    ADDR, APTR, ASHORT, ASPACE, BEHIND, BRANCH, BTARG, CALLN, CALLS, CFALSE, COPY, COPYCC, COPYCV,
    COPYE, COPYGC, COPYGV, COPYVC, COPYVV, COUNT, CTRUE, DIVBY, DIVS, DIVW, FETCH, FILL, GBOOT,
    GEXIT, GO, GOALL, GOB, GOBACK, GOCALL, GOCARY, GOEXIT, GOGT, GOH, GOMOVE, GORAND, GORTN, GOTO,
    GSTEP, GSTOP, INDEX, LDATA, LOAD, MOVEB, MOVED, MOVEK, MOVEL, MOVEN, MOVER, MOVES, OPSTWO,
    OPVAL, ORIGIN, OVER, RANDL, RESUME, ROW, SDATA, SEEK, SETR, SETW, SHOW, SREG, STO, STORE,
    STREAM, STROW, TAKE, UNKN, WHERE, WIDE, WORKSPACE,
};
pub use laws::{
    codes_are_dispatched, entries_come_first, lines_are_in_form, routines_are_in_place,
    rows_are_dispatched,
};
pub use source::{COPY_LINES, FLOW_LINES, OPERATION_LINES, ROUTINE_LINES, TABLE_LINES};
pub use words::{INTERP, interpreter_words};
