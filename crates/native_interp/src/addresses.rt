// Written by tools/interpreter from crates/native_interp/src/source.
//! Addresses in the interpreter. Profile: where the interpreter and its workspace stand.

/// How many words the interpreter has.
pub const WORD_COUNT: usize = 1217;

/// The interpreter's workspace: the address of its register 0.
pub const WORKSPACE: u16 = 0x83E0;

/// The address after the interpreter's last word.
pub const BEHIND: u16 = 0x2982;

/// Where the words of the interpreter begin.
pub const ORIGIN: u16 = 0x2000;

/// The table by code byte: a word for each of the 256.
pub const TABLE: u16 = 0x2008;

/// The table by operation: a word for two code bytes from `>80` on.
pub const OPTAB: u16 = 0x2208;

/// The interpreter begins here, with the entry of the GPL program in register 0.
pub const GBOOT: u16 = 0x2274;

/// Stops by reason 3.
pub const STK: u16 = 0x228C;

/// Stops by reason 1.
pub const UNKN: u16 = 0x2292;

/// Stops by reason 2.
pub const BAD: u16 = 0x2298;

/// A refused program stops here, with the reason in register 0 and the address of the code byte in register 1.
pub const GSTOP: u16 = 0x229C;

/// A program that leaves by EXIT stops here, with the address of the code byte in register 1.
pub const GEXIT: u16 = 0x229E;

/// Gives the address of the next GROM byte.
pub const WHERE: u16 = 0x22A0;

/// Sets the GROM to an address.
pub const SEEK: u16 = 0x22B8;

/// Reads the next GROM byte.
pub const FETCH: u16 = 0x22C4;

/// Finds the place of an operand.
pub const ADDR: u16 = 0x22CC;

/// The part of `ADDR` after an address in one byte.
pub const ASHORT: u16 = 0x22D6;

/// The part of `ADDR` for an address in more than one byte.
pub const ALONG: u16 = 0x22DE;

/// The part of `ADDR` for an address of 16 bits: its high byte.
pub const AHIGH: u16 = 0x22EC;

/// The part of `ADDR` for the low byte of an address.
pub const ALOW: u16 = 0x22F0;

/// The part of `ADDR` after the address: the pointer.
pub const APTR: u16 = 0x22F6;

/// The part of `ADDR` after the pointer: the index.
pub const INDEX: u16 = 0x2312;

/// The part of `INDEX` that reads where the index is.
pub const INDEXR: u16 = 0x2318;

/// The part of `INDEX` that adds the word there.
pub const INDEXW: u16 = 0x2324;

/// The part of `ADDR` after the index: the space and the range.
pub const ASPACE: u16 = 0x2330;

/// Loads a value from a place.
pub const LOAD: u16 = 0x2348;

/// The part of `LOAD` for a place in the cells.
pub const LCELL: u16 = 0x234C;

/// The part of `LOAD` for a place that is not in the cells.
pub const LOTHER: u16 = 0x2360;

/// The part of `LOAD` that sets the video processor's address.
pub const LVSET: u16 = 0x236C;

/// The part of `LOAD` that reads video memory at the address that was set.
pub const LDATA: u16 = 0x2376;

/// Loads a value from the bytes that follow in GROM.
pub const STREAM: u16 = 0x238A;

/// Stores a value at a place.
pub const STORE: u16 = 0x239E;

/// The part of `STORE` after the first byte of the cells.
pub const SCELL: u16 = 0x23AE;

/// The part of `STORE` for a place that is not in the cells.
pub const SOTHER: u16 = 0x23C4;

/// The part of `STORE` that sets the video processor's address.
pub const SVSET: u16 = 0x23D4;

/// The part of `STORE` that writes video memory at the address that was set.
pub const SDATA: u16 = 0x23DE;

/// The part of `STORE` that sets a register of the video processor.
pub const SREG: u16 = 0x23F0;

/// Loads the operands of a row and goes to it.
pub const ROW: u16 = 0x2402;

/// The part of `ROW` after the destination's place.
pub const OPSDST: u16 = 0x2410;

/// The part of `ROW` after the destination's value.
pub const OPSVAL: u16 = 0x2418;

/// The part of `ROW` that goes to the row.
pub const GO: u16 = 0x242E;

/// Loads the source of ST, and goes to its row.
pub const STROW: u16 = 0x2436;

/// The part of `STROW` after the destination's place.
pub const STDST: u16 = 0x2444;

/// The part of `ROW` that finds the source.
pub const OPSTWO: u16 = 0x2448;

/// The part of `ROW` that loads the source from its place.
pub const OPVAL: u16 = 0x245A;

/// The instruction EXIT.
pub const GOEXIT: u16 = 0x2462;

/// The row of INCT.
pub const INCTV: u16 = 0x2466;

/// The row of ADD and INC.
pub const ADDV: u16 = 0x2468;

/// The row of DECT.
pub const DECTV: u16 = 0x246C;

/// The row of SUB and DEC.
pub const SUBV: u16 = 0x246E;

/// The row of ABS.
pub const ABSV: u16 = 0x2472;

/// The row of NEG, and the tail of all that set the status.
pub const NEGV: u16 = 0x2476;

/// Sets the status, once the result is stored.
pub const STATB: u16 = 0x2482;

/// Ends a row that stored.
pub const SHOW: u16 = 0x2486;

/// The part of `SHOW` that puts the character on the screen.
pub const SHOWN: u16 = 0x248A;

/// The instruction B.
pub const GOB: u16 = 0x24AE;

/// Goes on at an address.
pub const GOTO: u16 = 0x24B8;

/// Each step of GPL begins here.
pub const GSTEP: u16 = 0x24C2;

/// The part of `GSTEP` that goes back to the code byte and reads it again.
pub const GBACK: u16 = 0x24D8;

/// The part of `GSTEP` that goes where the code byte leads.
pub const GCODE: u16 = 0x24EA;

/// The row of ST.
pub const STV: u16 = 0x24F4;

/// Stores the value of a row.
pub const STO: u16 = 0x24F6;

/// The row of AND.
pub const ANDV: u16 = 0x24FE;

/// The row of OR.
pub const ORV: u16 = 0x2504;

/// The row of XOR.
pub const XORV: u16 = 0x2508;

/// The row of INV.
pub const INVV: u16 = 0x250C;

/// The row of CLR.
pub const CLRV: u16 = 0x2510;

/// The row of EX.
pub const EXV: u16 = 0x2514;

/// Stores the old destination of EX at the source, once the source is stored.
pub const EXB: u16 = 0x251C;

/// Gives the count of a shift.
pub const COUNT: u16 = 0x2524;

/// The row of SRA.
pub const SRAV: u16 = 0x2536;

/// Shifts the value of SRA by its count.
pub const SRAB: u16 = 0x253A;

/// The row of SLL.
pub const SLLV: u16 = 0x253E;

/// Shifts the value of SLL by its count.
pub const SLLB: u16 = 0x2542;

/// The row of SRL.
pub const SRLV: u16 = 0x2546;

/// Shifts the value of SRL by its count.
pub const SRLB: u16 = 0x254A;

/// The row of SRC.
pub const SRCV: u16 = 0x254E;

/// Turns the value of SRC by its count.
pub const SRCB: u16 = 0x2552;

/// Loads the operands of MUL and DIV and goes to their row.
pub const WIDE: u16 = 0x2562;

/// The part of `WIDE` after the destination's place.
pub const WIDDST: u16 = 0x2570;

/// The part of `WIDE` after the destination's value.
pub const WIDVAL: u16 = 0x2578;

/// The row of MUL.
pub const MULV: u16 = 0x2580;

/// Stores the low word of a product, once the high word is stored.
pub const MULB: u16 = 0x2598;

/// The row of DIV.
pub const DIVV: u16 = 0x259E;

/// The part of DIV for bytes.
pub const DIVBY: u16 = 0x25A8;

/// The part of DIV for words.
pub const DIVW: u16 = 0x25BA;

/// The part of DIV for words, once the second word of the destination is loaded.
pub const DIVL: u16 = 0x25C6;

/// Takes the remainder of a DIV of words, once the quotient is stored.
pub const DIVQ: u16 = 0x25CE;

/// Stores the last word of DIV.
pub const DIVS: u16 = 0x25D2;

/// Ends DIV, once all is stored: the overflow is cleared.
pub const DIVE: u16 = 0x25D6;

/// Ends a DIV whose quotient does not fit: the overflow is set.
pub const OVER: u16 = 0x25E2;

/// The row of CH.
pub const CHV: u16 = 0x25EE;

/// The row of CHE.
pub const CHEV: u16 = 0x25F4;

/// The row of CGT.
pub const CGTV: u16 = 0x25FA;

/// The row of CGE.
pub const CGEV: u16 = 0x2600;

/// The row of CEQ.
pub const CEQV: u16 = 0x2606;

/// The row of CLOG.
pub const CLOGV: u16 = 0x260C;

/// The row of CZ.
pub const CZV: u16 = 0x2612;

/// The instruction H.
pub const GOH: u16 = 0x2618;

/// The instruction GT.
pub const GOGT: u16 = 0x2622;

/// The instruction CARRY.
pub const GOCARY: u16 = 0x262C;

/// The instruction OVF.
pub const GOOVF: u16 = 0x2636;

/// Sets the condition.
pub const CTRUE: u16 = 0x2640;

/// The instructions BR and BS.
pub const BRANCH: u16 = 0x264C;

/// Clears the condition.
pub const CFALSE: u16 = 0x265C;

/// The part of BR and BS that makes the address of their target.
pub const BTARG: u16 = 0x2668;

/// Clears the condition and goes on at an address.
pub const TAKE: u16 = 0x267C;

/// The row of CASE.
pub const CASEV: u16 = 0x2688;

/// The part of CASE after the next address.
pub const CASEN: u16 = 0x2694;

/// Goes on in the table of CASE.
pub const CASET: u16 = 0x269C;

/// The row of PUSH.
pub const PUSHV: u16 = 0x26A0;

/// Goes to the stop by reason 3.
pub const FULL: u16 = 0x26BE;

/// The instruction CALL.
pub const GOCALL: u16 = 0x26C2;

/// The part of CALL after its target: the pointer of the stack.
pub const CALLT: u16 = 0x26CC;

/// Finds the next address, which CALL stacks.
pub const CALLN: u16 = 0x26DC;

/// Stores the pointer and the address of CALL.
pub const CALLS: u16 = 0x26F2;

/// The instructions RTN and RTNC.
pub const GORTN: u16 = 0x2720;

/// The part of RTN and RTNC that takes the word off the stack.
pub const RTNW: u16 = 0x272C;

/// The row of FETCH.
pub const FETCHV: u16 = 0x2746;

/// The part of FETCH after the next address.
pub const FETCHN: u16 = 0x275A;

/// Loads the stacked address of FETCH.
pub const FETCHP: u16 = 0x2760;

/// Sets the GROM to the stacked address.
pub const FETCHA: u16 = 0x276C;

/// Reads the byte of FETCH.
pub const FETCHR: u16 = 0x2770;

/// Keeps the byte of FETCH.
pub const FETCHK: u16 = 0x2774;

/// The part of FETCH after the address that follows its byte.
pub const FETCHB: u16 = 0x277A;

/// Stores the address that follows the byte of FETCH.
pub const FETCHS: u16 = 0x2780;

/// Stores the byte of FETCH.
pub const FETCHD: u16 = 0x2786;

/// The instruction RAND.
pub const GORAND: u16 = 0x2798;

/// The part of RAND that makes the next seed.
pub const RANDM: u16 = 0x27A2;

/// The part of RAND after the seed: the limit.
pub const RANDL: u16 = 0x27B6;

/// Stops by reason 4.
pub const LONG: u16 = 0x27CC;

/// The instruction MOVE.
pub const GOMOVE: u16 = 0x27D4;

/// Loads the length of MOVE.
pub const MOVEN: u16 = 0x27E8;

/// The part of MOVE after its length: the target.
pub const MOVEL: u16 = 0x27EC;

/// The part of MOVE after its target: the source.
pub const MOVED: u16 = 0x2800;

/// Begins the copy of MOVE.
pub const MOVEB: u16 = 0x280E;

/// The part of `MOVEB` after the mark.
pub const MOVEP: u16 = 0x2826;

/// Copies a byte of MOVE from the cells to the cells.
pub const COPYCC: u16 = 0x2836;

/// Sets the video processor's address to the source of MOVE.
pub const SETR: u16 = 0x283E;

/// Copies a byte of MOVE from video memory to the cells.
pub const COPYVC: u16 = 0x284E;

/// Copies a byte of MOVE from GROM to the cells.
pub const COPYGC: u16 = 0x2858;

/// Sets the video processor's address to the target of MOVE.
pub const SETW: u16 = 0x2862;

/// The part of `SETW` that writes the address.
pub const SETWA: u16 = 0x2872;

/// Copies a byte of MOVE from the cells to video memory.
pub const COPYCV: u16 = 0x2884;

/// Copies a byte of MOVE from GROM to video memory.
pub const COPYGV: u16 = 0x288E;

/// The part of `MOVEB` before bytes that go to registers.
pub const COPYL: u16 = 0x289A;

/// Asks LOAD for a byte of MOVE.
pub const COPY: u16 = 0x289E;

/// Stores a byte of MOVE.
pub const COPYS: u16 = 0x28A2;

/// Goes on to the next byte of MOVE.
pub const COPYN: u16 = 0x28A8;

/// Ends the copy of MOVE.
pub const COPYE: u16 = 0x28B0;

/// Ends FETCH and a MOVE out of GROM: goes on at the address that was kept.
pub const RESUME: u16 = 0x28BA;

/// The part of MOVE whose target is the registers of the video chip.
pub const MOVER: u16 = 0x28C8;

/// The part of MOVE that tests whether all the registers are there.
pub const MOVERC: u16 = 0x28D0;

/// The part of MOVE whose source is in GROM.
pub const MOVES: u16 = 0x28DE;

/// Adds the index to that source's address.
pub const MOVEA: u16 = 0x28E6;

/// Asks for the address after MOVE.
pub const MOVEX: u16 = 0x28F4;

/// Keeps that address, and sets the GROM to the source.
pub const MOVEW: u16 = 0x28F8;

/// Turns to the bytes that follow there.
pub const MOVEK: u16 = 0x2900;

/// Stops by reason 5.
pub const NOREG: u16 = 0x2906;

/// The part of `SETW` for a source in video memory too.
pub const SETVV: u16 = 0x290E;

/// Copies a byte of MOVE from video memory to video memory.
pub const COPYVV: u16 = 0x291A;

/// The part of `COPYVV` after the byte.
pub const COPYVA: u16 = 0x2936;

/// The instruction ALL.
pub const GOALL: u16 = 0x294C;

/// Stores a byte of ALL, or ends the step.
pub const FILL: u16 = 0x2962;

/// The instruction BACK.
pub const GOBACK: u16 = 0x296E;
