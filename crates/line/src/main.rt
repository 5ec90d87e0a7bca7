// Prints the line of reduced ideals of a setting: d, then an ideal a line, from (1) on, and then the places that are asked for.
#![tactic(auto)]

use script::{Fault, Placed, Plan, Shown, Walk, read, request_on, text_of};
use std::io;
use std::io::Read;
use std::process::ExitCode;

fn show_line(rt: &HostRuntime, plan: &Plan) -> io::Result<()> {
    let d = Shown(plan.curve.setting.root());
    println!(rt; "d = {d}")?;
    for stop in Walk::new(plan) {
        println!(rt; "{stop}")?;
    }
    Ok(())
}

fn show_places(rt: &HostRuntime, plan: &Plan, text: &str) -> io::Result<()> {
    for line in text.lines() {
        if let Some(request) = request_on(line) {
            let place = request.place(&plan.curve);
            let asked = line.trim();
            let answer = Placed(&place);
            println!(rt; "{asked}: {answer}")?;
        }
    }
    Ok(())
}

// The text of an input, and the plan that it asks for.
fn asked(input: &[u8]) -> Result<(&str, Plan), Fault> {
    let text = text_of(input)?;
    Ok((text, read(text)?))
}

// Where something is wrong with the input, one line says what, and the exit status is 1.
fn main(rt: HostRuntime) -> io::Result<ExitCode> {
    let mut input = Vec::new(rt.alloc());
    rt.stdin().read_to_end(&mut input)?;
    match asked(input.as_slice()) {
        Ok((text, plan)) => {
            show_line(&rt, &plan)?;
            show_places(&rt, &plan, text)?;
            Ok(ExitCode::SUCCESS)
        }
        Err(fault) => {
            eprintln!(rt; "{fault}")?;
            Ok(ExitCode::FAILURE)
        }
    }
}
