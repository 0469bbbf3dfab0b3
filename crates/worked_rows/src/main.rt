//! Worked rows: what the program and the layers below it give, against values that were worked out
//! apart. Each word names a table of rows; a row that gives another value is printed.
#![tactic(auto)]

mod answers;
mod backs;
mod beside;
mod commands;
mod describing;
mod files;
mod given;
mod growing;
mod judging;
mod layers;
mod lines;
mod noting;
mod steps;
mod systems;
mod table;
mod texts;
mod towers;
mod trees;
mod walks;

use crate::answers::answer;
use crate::files::Files;
use crate::given::Given;
use crate::table::{Row, Tally, row_of};
use std::thread::Threads;
use std::{env, fs, io};

fn main(rt: HostRuntime) -> io::Result<()> {
    let mut tally = Tally { right: 0, wrong: 0 };
    for name in env::args(&rt)?.skip(1) {
        let text = fs::read_to_string(&rt, name.as_str())?;
        judge_table(&rt, &rt, text.as_str(), &mut tally)?;
    }
    if tally.wrong == 0 && tally.right > 0 {
        println!(rt; "all rows hold")
    } else {
        println!(rt; "{} rows hold, and {} do not", tally.right, tally.wrong)
    }
}

/// Tries each row of a table.
fn judge_table<R: Threads + Sync>(
    threads: &R,
    rt: &HostRuntime,
    text: &str,
    tally: &mut Tally,
) -> io::Result<()> {
    let mut files = Files::new(rt.alloc());
    for paragraph in text.split("\n\n") {
        if let Some(row) = row_of(paragraph) {
            let mut given = Given::new(rt.alloc());
            if answer(threads, &mut given, &mut files, &row)? {
                judge_row(rt, &row, given.whole()?, tally)?;
            }
        }
    }
    Ok(())
}

/// Compares what a row gives with what it says.
fn judge_row(rt: &HostRuntime, row: &Row<'_>, given: &str, tally: &mut Tally) -> io::Result<()> {
    if given.trim_end() == row.body {
        tally.right = tally.right.saturating_add(1);
        return Ok(());
    }
    tally.wrong = tally.wrong.saturating_add(1);
    println!(rt; "{}\n{given}\nand not\n{}\n", row.heading, row.body)
}
