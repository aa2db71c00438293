//! Reads a script of calls, a line each, and prints each answer.
#![tactic(auto)]

use calls::{Answer, answer_all};
use gates::Complement;
use plain_gates::PlainGates;
use record::Refusal;
use script::read_script;
use std::io;
use std::io::Write;
use std::process::ExitCode;

mod script;

fn main(rt: HostRuntime) -> ExitCode {
    match run(&rt) {
        Ok(()) => ExitCode::SUCCESS,
        Err(error) => {
            let _ = eprintln!(rt; "{error}");
            ExitCode::FAILURE
        }
    }
}

// Nothing is run unless every line is a call.
fn run(rt: &HostRuntime) -> anyhow::Result<()> {
    let calls = read_script(rt)?;
    let library = Complement { below: PlainGates };
    let answers = answer_all(rt.alloc(), library, &calls)?;
    for answer in &answers {
        print_answer(rt, answer)?;
    }
    Ok(())
}

fn print_answer(rt: &HostRuntime, answer: &Result<Answer, Refusal>) -> io::Result<()> {
    match answer {
        Ok(Answer::Number(number)) => println!(rt; "number {number}"),
        Ok(Answer::Done) => rt.println("done"),
        Ok(Answer::Unstable(unstable)) => rt.println(if *unstable { "unstable" } else { "stable" }),
        Ok(Answer::Ran(first, second, open)) => println!(rt; "steps {first} {second} open {open}"),
        Ok(Answer::Marks(first, second)) => println!(rt; "marks {first}{second}"),
        Ok(Answer::Sheet(bytes)) => rt.stdout().write_all(bytes),
        Err(refusal) => rt.println(refusal),
    }
}
