// Runs every case of the old desk's notebook (01) that is not marked P, through the services, and prints each with what came back;
// then tables with a number that is not below its limit (02, L1), cases of a row against itself (by 02's L3), tables with
// constraints (02, L5) and with suppliers (02, L6); then takes rows out of tables, each as a part of the table, or with the companion's refusal.
#![tactic(auto)]

use pierstride::Written;
use std::io;

// Table A; question 2 asks if row 2 is free of conflict.
const A: [u8; 22] = [
    0x11, 0x00, 0x10, 0x01, 0x33, 0x00, 0x01, 0x01, 0x38, 0x02, 0x03, 0x22, 0x02, 0x40, 0x04, 0x05,
    0x40, 0x05, 0x04, 0x43, 0x00, 0x01,
];

// The table of the strike cases.
const S: [u8; 7] = [0x00, 0x02, 0x20, 0x01, 0x40, 0x01, 0x02];

fn refused(rt: &impl Print, refusal: u32, place: usize) -> io::Result<()> {
    println!(rt; "refused {refusal} at {place}")
}

// Reading: how many rows, questions and predicates, or the refusal.
fn reads(rt: &impl Print, name: &str, table: &[u8]) -> io::Result<()> {
    print!(rt; "{name}: ")?;
    let c = pierstride::pier_read(table);
    if c.refusal != 0 {
        return refused(rt, c.refusal, c.place);
    }
    println!(rt;
        "accepted, rows {} questions {} predicates {}",
        c.rows, c.questions, c.predicates
    )
}

// The set of a row.
fn sets(
    rt: &impl Print,
    name: &str,
    table: &[u8],
    row: u32,
    known: u32,
    request: u32,
) -> io::Result<()> {
    print!(rt; "{name}: ")?;
    let s = pierstride::pier_possible(table, row, known, request);
    if s.refusal != 0 {
        return refused(rt, s.refusal, s.place);
    }
    println!(rt; "set {}", s.set)
}

// The verdict on a question.
fn asks(rt: &impl Print, name: &str, table: &[u8], question: u32, budget: u32) -> io::Result<()> {
    print!(rt; "{name}, budget {budget}: ")?;
    let v = pierstride::pier_verdict(table, question, budget);
    if v.refusal != 0 {
        return refused(rt, v.refusal, v.place);
    }
    let visits = v.visits;
    match v.reply {
        pierstride::HOLDS => println!(rt; "holds, count {visits}"),
        pierstride::FAILS => println!(rt; "fails, mask {}, count {visits}", v.request),
        _ => println!(rt; "unfinished, count {visits}"),
    }
}

// The first bytes of a part, so many at most.
fn bytes(rt: &impl Print, part: &[u8], most: usize) -> io::Result<()> {
    for b in part.iter().take(most) {
        print!(rt; " {b:02x}")?;
    }
    println!(rt)
}

// The bytes that a call wrote over the front of an output, or its refusal.
fn wrote(rt: &impl Print, written: Written, out: &[u8]) -> io::Result<()> {
    if written.refusal != 0 {
        print!(rt; " ")?;
        return refused(rt, written.refusal, written.place);
    }
    bytes(rt, out, written.length)
}

// Striking a row.
fn strikes(rt: &impl Print, name: &str, table: &[u8], row: u32) -> io::Result<()> {
    print!(rt; "{name}, strike {row}:")?;
    let mut out = [0u8; 7];
    let struck = pierstride::pier_strike(table, row, &mut out);
    wrote(rt, struck, &out)
}

// The suppliers of the rows that a row reaches.
fn lists(rt: &impl Print, name: &str, table: &[u8], row: u32) -> io::Result<()> {
    print!(rt; "{name}, suppliers of row {row}:")?;
    let mut out = [0u8; 7];
    let listed = pierstride::pier_suppliers(table, row, &mut out);
    wrote(rt, listed, &out)
}

// A row's own bytes, or why there are none.
fn takes(rt: &impl Print, name: &str, table: &[u8], row: u32) -> io::Result<()> {
    print!(rt; "{name}, row {row}:")?;
    if let Some(why) = lookup::entry_refusal(table, row) {
        print!(rt; " ")?;
        return refused(rt, u32::from(why.reason.number()), why.place);
    }
    let part = lookup::entry(table, row);
    bytes(rt, part, part.len())
}

// 00 and 65 times 40 00 00.
fn one_question_more(rt: &impl Print) -> io::Result<()> {
    let mut table = [0u8; 196];
    for i in 0..65 {
        table[3 * i + 1] = 0x40;
    }
    reads(rt, "00 and 65 times 40 00 00", &table)
}

// Table A: what is possible, and the verdict.
fn table_a(rt: &impl Print, a: &[u8]) -> io::Result<()> {
    sets(rt, "A, row 2, predicate 0 known yes", a, 2, 1, 1)?;
    sets(rt, "A, row 2, both known yes", a, 2, 3, 3)?;
    asks(rt, "A, question 2", a, 2, 4)?;
    asks(rt, "A, question 2", a, 2, 5)
}

fn short_tables(rt: &impl Print) -> io::Result<()> {
    reads(rt, "12", b"\x12")?;
    reads(rt, "11", b"\x11")?;
    reads(rt, "11 17", b"\x11\x17")?;
    reads(rt, "11 18", b"\x11\x18")?;
    reads(rt, "20 00", b"\x20\x00")?;
    reads(rt, "33 00", b"\x33\x00")?;
    reads(rt, "00 40 00 00 00", b"\x00\x40\x00\x00\x00")
}

fn strike_cases(rt: &impl Print) -> io::Result<()> {
    strikes(rt, "00 02 20 01 40 01 02", &S, 0)?;
    strikes(rt, "00 02 20 01 40 01 02", &S, 1)?;
    strikes(rt, "00 02 20 01 40 01 02", &S, 3)?;
    asks(rt, "00 02 20 01 40 01 02, question 0", &S, 0, 1000000)?;
    asks(rt, "00 02 20 01 40 01 02, question 0", &S, 0, 0)
}

// Two numbers too high, only the second, and one that is there in a body that is cut short.
fn numbers_too_high(rt: &impl Print) -> io::Result<()> {
    reads(rt, "00 30 05 05", b"\x00\x30\x05\x05")?;
    reads(rt, "00 30 00 05", b"\x00\x30\x00\x05")?;
    reads(rt, "33 05", b"\x33\x05")
}

// One choice serves both where both numbers are equal, in a row, a comparison and "both"; two rows of the same content are chosen from each for itself.
fn against_itself(rt: &impl Print) -> io::Result<()> {
    sets(
        rt,
        "11 00 34 00 00, row 1, nothing known",
        b"\x11\x00\x34\x00\x00",
        1,
        0,
        0,
    )?;
    asks(
        rt,
        "11 00 40 00 00, question 0",
        b"\x11\x00\x40\x00\x00",
        0,
        1,
    )?;
    sets(
        rt,
        "11 00 11 00 34 00 01, row 2, nothing known",
        b"\x11\x00\x11\x00\x34\x00\x01",
        2,
        0,
        0,
    )?;
    asks(
        rt,
        "11 00 11 00 40 00 01, question 0",
        b"\x11\x00\x11\x00\x40\x00\x01",
        0,
        1,
    )?;
    asks(
        rt,
        "11 00 40 00 00 43 00 00, question 1",
        b"\x11\x00\x40\x00\x00\x43\x00\x00",
        1,
        1,
    )
}

// A breaking request that a constraint excludes, with another in its place and with none; a constraint behind a row.
fn constrained(rt: &impl Print) -> io::Result<()> {
    asks(
        rt,
        "51 00 02 11 00 00 40 00 01, question 0",
        b"\x51\x00\x02\x11\x00\x00\x40\x00\x01",
        0,
        6,
    )?;
    asks(
        rt,
        "50 00 00 11 00 00 40 00 01, question 0",
        b"\x50\x00\x00\x11\x00\x00\x40\x00\x01",
        0,
        3,
    )?;
    reads(rt, "00 50 00 01", b"\x00\x50\x00\x01")
}

// A supplier that no row follows, and one whose row is cut short; 60s that vanish or appear when a row is struck; whose rows a row reaches.
fn supplied(rt: &impl Print) -> io::Result<()> {
    reads(rt, "60 05 40", b"\x60\x05\x40")?;
    reads(rt, "60 05 20", b"\x60\x05\x20")?;
    strikes(
        rt,
        "00 60 01 00 60 00 00",
        b"\x00\x60\x01\x00\x60\x00\x00",
        1,
    )?;
    strikes(rt, "00 60 01 00 00", b"\x00\x60\x01\x00\x00", 1)?;
    lists(
        rt,
        "60 09 00 60 00 00 60 09 20 00 60 04 20 02",
        b"\x60\x09\x00\x60\x00\x00\x60\x09\x20\x00\x60\x04\x20\x02",
        3,
    )
}

fn rows_taken(rt: &impl Print, a: &[u8]) -> io::Result<()> {
    takes(rt, "A", a, 0)?;
    takes(rt, "A", a, 2)?;
    takes(rt, "A", a, 3)?;
    takes(rt, "A", a, 5)?;
    takes(rt, "A", a, 6)?;
    takes(rt, "00 40 00 00 00", b"\x00\x40\x00\x00\x00", 0)?;
    takes(rt, "00 30 00 05", b"\x00\x30\x00\x05", 0)?;
    takes(
        rt,
        "51 00 02 11 00 00 40 00 01",
        b"\x51\x00\x02\x11\x00\x00\x40\x00\x01",
        0,
    )?;
    takes(rt, "00 60 01 20 00", b"\x00\x60\x01\x20\x00", 1)
}

fn main(rt: HostRuntime) -> io::Result<()> {
    let zeros = [0u8; 257];
    table_a(&rt, &A)?;
    reads(&rt, "empty table", &zeros[..0])?;
    short_tables(&rt)?;
    reads(&rt, "256 bytes of 00", &zeros[..256])?;
    reads(&rt, "257 bytes of 00", &zeros)?;
    one_question_more(&rt)?;
    strike_cases(&rt)?;
    numbers_too_high(&rt)?;
    against_itself(&rt)?;
    constrained(&rt)?;
    supplied(&rt)?;
    rows_taken(&rt, &A)?;
    takes(&rt, "empty table", &zeros[..0], 0)
}
