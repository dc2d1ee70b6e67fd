// Reads a book of commands, and prints its pages and a statement.
#![tactic(auto)]

use anyhow::anyhow;
use commands::command::Command;
use commands::fault::Fault;
use commands::parse::parse;
use desk::pages::{Page, Statement, name};
use desk::questions::answer;
use notation::lines::Lines;
use std::io::Read;
use std::process::ExitCode;
use std::{env, fs};

// The bytes of a file; the error names it, in one text with the cause, since a long one is cut at its end.
fn read_file(rt: &HostRuntime, path: &str) -> anyhow::Result<Vec<u8>> {
    fs::read(rt, path).map_err(|error| anyhow!("cannot read {path}: {error}"))
}

// The file that the first argument names, or standard input.
fn read_book(rt: &HostRuntime) -> anyhow::Result<Vec<u8>> {
    let mut args = env::args(rt)?;
    let _program = args.next();
    match args.next() {
        Some(path) => read_file(rt, path.as_str()),
        None => {
            let mut book = Vec::new(rt.alloc());
            rt.stdin().read_to_end(&mut book)?;
            Ok(book)
        }
    }
}

// Answers a command, and prints its page.
fn print_page(
    rt: &HostRuntime,
    statement: &mut Statement,
    command: &Command,
) -> anyhow::Result<()> {
    let answer = answer(rt.alloc(), command)?;
    statement.enter(&answer);
    let page = Page {
        number: statement.pages(),
        name: name(command),
        answer: &answer,
    };
    println!(rt; "{page}")?;
    Ok(())
}

// Prints what a line asks for, and says whether it could be read.
fn print_line(
    rt: &HostRuntime,
    statement: &mut Statement,
    number: u64,
    line: &[u8],
) -> anyhow::Result<bool> {
    match parse(rt.alloc(), line) {
        Ok(Some(command)) => {
            print_page(rt, statement, &command)?;
            Ok(true)
        }
        Ok(None) => Ok(true),
        Err(fault @ Fault::NoMemory) => Err(fault.into()),
        Err(fault) => {
            println!(rt; "line {number}: {fault}")?;
            Ok(false)
        }
    }
}

// Prints the pages of a book and its statement, and says whether all of it could be read.
fn print_book(rt: &HostRuntime, book: &[u8]) -> anyhow::Result<bool> {
    let mut statement = Statement::new();
    let mut readable = true;
    for (number, line) in (1..).zip(Lines::new(book)) {
        if !print_line(rt, &mut statement, number, line)? {
            readable = false;
        }
    }
    println!(rt; "{statement}")?;
    Ok(readable)
}

fn run(rt: &HostRuntime) -> anyhow::Result<bool> {
    let book = read_book(rt)?;
    print_book(rt, book.as_slice())
}

// Ends with status 1 where a line, the file or the memory failed.
fn main(rt: HostRuntime) -> ExitCode {
    match run(&rt) {
        Ok(true) => ExitCode::SUCCESS,
        Ok(false) => ExitCode::FAILURE,
        Err(error) => {
            // where this cannot be written either, the exit code tells
            let _told = eprintln!(rt; "relay: {error}");
            ExitCode::FAILURE
        }
    }
}
